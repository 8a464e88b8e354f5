//! The paths of a certificate's header, line by line.

ghost use Rattle.std.specs.Prelude.{◌≡◌, ◌≢◌, IfOk, IfErr, IsTrue, Ok, Err};
ghost use Rattle.std.specs.Option.{option_map};
ghost use Rattle.sf_lex.specs.Text.{words, is_blank_byte};
ghost use Rattle.sf_lex.specs.Scan.{numbered_rest, last_line_of};
ghost use Rattle.sf_lex.specs.Whole.{plain_read};
ghost use Rattle.sf_model.specs.Paths.{all_lead};
ghost use Rattle.sf_cert_text.specs.declared.fault.CertFault.TheVariants.{BadHeader, NoMemory};
ghost use Rattle.sf_cert_text.specs.Reading.{count_in, path_in, step_in, steps_said, pin_before};
ghost use Rattle.sf_cert_text.specs.Reading.{line_read, paths_read, axis_read, both_read, ReadsLine};

use crate::fault::CertFault;
use crate::header::{next_line, value_in};
use crate::version::Version;
use sf_lex::{Gap, Scan, next_field, read_plain};
use sf_model::{Path, PathList, Paths, Pin, Step, Steps};
use std::alloc::{AllocError, Global};

/// The paths of a text of this version, which stand before the tree. Those of the first two have none.
pub fn read_paths(
    alloc: Global,
    scan: &mut Scan,
    text: &[u8],
    version: Version,
) -> Result<Paths, CertFault>
    ensures paths { IfOk result (λ paths. both_read version (last_line_of text.now) (numbered_rest scan.old)
        ≡ Ok (paths, numbered_rest scan.new)) }
    ensures lead { IfOk result (λ paths. IsTrue (all_lead paths)) }
    ensures fault { IfErr result (λ e. e ≢ NoMemory
        → both_read version (last_line_of text.now) (numbered_rest scan.old) ≡ Err e) }
{
    match version {
        Version::One | Version::Two => Ok(Paths {
            across: PathList::from_vec(Vec::new(alloc)),
            upward: PathList::from_vec(Vec::new(alloc)),
        }),
        Version::Three => {
            let across = read_axis(alloc, scan, text, b"across")?;
            let upward = read_axis(alloc, scan, text, b"upward")?;
            Ok(Paths { across, upward })
        }
    }
}

/// A line of a label and a count, and so many lines of paths.
fn read_axis(
    alloc: Global,
    scan: &mut Scan,
    text: &[u8],
    label: &[u8],
) -> Result<PathList, CertFault>
    ensures paths { IfOk result (λ paths. axis_read (last_line_of text.now) label.now (numbered_rest scan.old)
        ≡ Ok (paths, numbered_rest scan.new)) }
    ensures fault { IfErr result (λ e. e ≢ NoMemory
        → axis_read (last_line_of text.now) label.now (numbered_rest scan.old) ≡ Err e) }
{
    let count = read_count(scan, text, label)?;
    let paths = read_lines(alloc, scan, text, count)?;
    Ok(PathList::from_vec(paths))
}

/// So many lines of paths.
fn read_lines(
    alloc: Global,
    scan: &mut Scan,
    text: &[u8],
    count: u64,
) -> Result<Vec<Path>, CertFault>
    ensures paths { IfOk result (λ paths. paths_read (last_line_of text.now) count (numbered_rest scan.old)
        ≡ Ok (paths.items, numbered_rest scan.new)) }
    ensures fault { IfErr result (λ e. e ≢ NoMemory
        → paths_read (last_line_of text.now) count (numbered_rest scan.old) ≡ Err e) }
{
    let mut paths = Vec::new(alloc);
    for _path in 0..count {
        let path = read_path(alloc, scan, text)?;
        paths.push(path)?;
    }
    Ok(paths)
}

/// A line of a label and a count.
fn read_count(scan: &mut Scan, text: &[u8], label: &[u8]) -> Result<u64, CertFault>
    ensures { ReadsLine (last_line_of text.now) (count_in label.now) (λ count. count)
        (numbered_rest scan.old) (numbered_rest scan.new) result }
{
    let line = next_line(scan, text)?;
    count_in(line.text, label).ok_or(CertFault::BadHeader(line.line))
}

/// The count of a line of a label and a count.
fn count_in(line: &[u8], label: &[u8]) -> Option<u64>
    ensures { result ≡ count_in label.now line.now }
{
    match value_in(line, label) {
        Some(value) => read_plain(value, u64::MAX),
        None => None,
    }
}

/// A line of a path.
fn read_path(alloc: Global, scan: &mut Scan, text: &[u8]) -> Result<Path, CertFault>
    ensures path { IfOk result (λ path. line_read (last_line_of text.now) path_in (numbered_rest scan.old)
        ≡ Ok (path, numbered_rest scan.new)) }
    ensures fault { IfErr result (λ e. e ≢ NoMemory
        → line_read (last_line_of text.now) path_in (numbered_rest scan.old) ≡ Err e) }
{
    let line = next_line(scan, text)?;
    match path_in(alloc, line.text)? {
        Some(path) => Ok(path),
        None => Err(CertFault::BadHeader(line.line)),
    }
}

/// The path of a line of a path.
fn path_in(alloc: Global, line: &[u8]) -> Result<Option<Path>, AllocError>
    ensures { IfOk result (λ path. path ≡ path_in line.now) }
{
    let Some((first, rest)) = next_field(line, Gap::Blanks) else {
        return Ok(None);
    };
    let Some(pad) = read_pin(first) else {
        return Ok(None);
    };
    let Some(steps) = steps_said(alloc, rest)? else {
        return Ok(None);
    };
    if steps.is_empty() {
        return Ok(None);
    }
    Ok(Some(Path {
        first: Pin::Pad(pad),
        steps: Steps::from_vec(steps),
    }))
}

/// The steps that words say, a net and a pin by turns.
fn steps_said(alloc: Global, line: &[u8]) -> Result<Option<Vec<Step>>, AllocError>
    ensures { IfOk result (λ steps. option_map (λ s. s.items) steps ≡ steps_said (words is_blank_byte line.now)) }
{
    let mut steps = Vec::new(alloc);
    let mut rest = line;
    while let Some((net, after)) = next_field(rest, Gap::Blanks) {
        let Some((to, after)) = next_field(after, Gap::Blanks) else {
            return Ok(None);
        };
        let Some(step) = step_in(net, to, after) else {
            return Ok(None);
        };
        steps.push(step)?;
        rest = after;
    }
    Ok(Some(steps))
}

/// The step that a net and a pin say, by what stands behind them.
fn step_in(net: &[u8], to: &[u8], rest: &[u8]) -> Option<Step>
    ensures { result ≡ step_in net.now to.now (words is_blank_byte rest.now) }
{
    let net = read_plain(net, 4_294_967_295)?;
    let to = pin_before(rest, read_pin(to)?);
    Some(Step {
        net: net as u32,
        to,
    })
}

/// The pin of a number, by what stands behind it.
fn pin_before(rest: &[u8], number: u16) -> Pin
    ensures { result ≡ pin_before (words is_blank_byte rest.now) number }
{
    if next_field(rest, Gap::Blanks).is_none() {
        Pin::Pad(number)
    } else {
        Pin::Block(number)
    }
}

/// The number of a pin.
fn read_pin(word: &[u8]) -> Option<u16>
    ensures { result ≡ plain_read 65_535 word.now }
{
    match read_plain(word, 65_535) {
        Some(number) => Some(number as u16),
        None => None,
    }
}
