//! The text of a certificate.

ghost use Rattle.std.specs.Prelude.{◌≡◌, ◌<◌, ◌^◌, [], ◌∷◌, ◌++◌, All, IfOk, OnOk, string_bytes, codes};
ghost use Rattle.std.specs.Prelude.{◌+◌, ◌≤◌, length, take, MatchOption, IsTrue, Ok, ⊤};
ghost use Rattle.std.specs.Fmt.{decimal};
ghost use Rattle.sf_polish.specs.Normal.{IsNormal};
ghost use Rattle.sf_certificate.specs.declared.tag.Tag.TheVariants.{Split};
ghost use Rattle.sf_certificate.specs.Said.{said_by};
ghost use Rattle.sf_cert_text.specs.Reading.{cert_read};
ghost use Rattle.sf_cert_text.specs.Text.{plan_text, header_lines, text_of_lines, tag_text, tags_text};
ghost use Rattle.sf_cert_text.specs.Text.{cert_text, plan_lines, version_text, part_text, FitsTag, IsShortLine};
ghost use Rattle.sf_cert_text.specs.Paths.{FitsPaths};
ghost use Rattle.sf_cert_text.specs.declared.writing.TheConstants.{ROW, LONGEST};
ghost use Rattle.sf_model.specs.Paths.{all_lead};
ghost use Rattle.sf_model.specs.CostText.{cost_text};

use crate::path_writing::{has_none, push_paths};
use itoa::Buffer;
use sf_certificate::{Cert, Tag, TagList};
use sf_expr_text::push_expr;
use sf_model::{Paths, push_cost};
use sf_node::Part;
use sf_polish::Expr;
use std::alloc::{AllocError as NoMemory, Global};

/// How many bytes are put together before they are added to the text.
const ROW: usize = 4096;

/// No line of a tag has more bytes: an `S`, a space, five digits and the end of the line.
const LONGEST: usize = 8;

/// How many bytes the line of a closed subproblem has. Most lines of a long text are such, so as many are reserved for
/// each tag. The lines of other tags, but for a split's, are no longer.
const CLOSED: usize = 4;

/// The text of a certificate, of the second version, or of the third where it has paths: a header, then one
/// line for each tag.
pub fn write(alloc: Global, cert: &Cert) -> Result<Vec<u8>, NoMemory>
    ensures text { IfOk result (λ text. text.items ≡ cert_text cert.now) }
    // What is written is read as the same certificate, where its paths lead from pad to pad.
    ensures read_back { IfOk result (λ text. IsTrue (all_lead cert.now.paths)
        → cert_read cert.now.blocks text.items ≡ Ok (said_by cert.now)) }
{
    let mut header = String::new(alloc);
    push_header(&mut header, cert)?;
    let mut text = header.into_bytes();
    text.reserve(cert.tags.len().saturating_mul(CLOSED))?;
    push_tags(&mut text, &cert.tags)?;
    Ok(text)
}

/// The lines before the tree, and its own.
fn push_header(text: &mut String, cert: &Cert) -> Result<(), NoMemory>
    ensures cost { OnOk result (cert.now.cost < 2 ^ 64) }
    ensures bound { OnOk result (cert.now.bound < 2 ^ 64) }
    ensures paths { OnOk result (FitsPaths cert.now.paths) }
    ensures text { OnOk result (string_bytes text.new
        ≡ string_bytes text.old
        ++ text_of_lines (header_lines cert.now.blocks cert.now.plan cert.now.cost cert.now.bound cert.now.paths)) }
{
    push_plan_lines(text, cert)?;
    push_paths(text, &cert.paths)?;
    text.push_str("tree\n")?;
    Ok(())
}

/// The lines before the paths.
fn push_plan_lines(text: &mut String, cert: &Cert) -> Result<(), NoMemory>
    ensures cost { OnOk result (cert.now.cost < 2 ^ 64) }
    ensures bound { OnOk result (cert.now.bound < 2 ^ 64) }
    ensures text { OnOk result (string_bytes text.new
        ≡ string_bytes text.old
        ++ text_of_lines (plan_lines cert.now.blocks cert.now.plan cert.now.cost cert.now.bound cert.now.paths)) }
{
    push_version(text, &cert.paths)?;
    push_blocks(text, cert.blocks)?;
    push_cost_line(text, "cost", cert.cost)?;
    push_cost_line(text, "bound", cert.bound)?;
    push_plan(text, &cert.plan)?;
    Ok(())
}

/// The line of the version.
fn push_version(text: &mut String, paths: &Paths) -> Result<(), NoMemory>
    ensures { OnOk result (string_bytes text.new
        ≡ string_bytes text.old ++ (codes "slicing-certificate " ++ (version_text paths.now ++ 10 ∷ []))) }
{
    text.push_str("slicing-certificate ")?;
    text.push_str(version_of(paths))?;
    text.push_str("\n")?;
    Ok(())
}

/// The version of a certificate with these paths.
fn version_of(paths: &Paths) -> &'static str
    ensures { result.now ≡ version_text paths.now }
{
    if has_none(paths) { "2" } else { "3" }
}

/// The line of the number of blocks.
fn push_blocks(text: &mut String, blocks: u16) -> Result<(), NoMemory>
    ensures { OnOk result (string_bytes text.new
        ≡ string_bytes text.old ++ (codes "blocks " ++ (decimal blocks ++ 10 ∷ []))) }
{
    write!(text, "blocks {blocks}\n")
}

/// A line with a label and a cost.
fn push_cost_line(text: &mut String, label: &str, cost: u64) -> Result<(), NoMemory>
    ensures cost { OnOk result (cost < 2 ^ 64) }
    ensures text { OnOk result (string_bytes text.new
        ≡ string_bytes text.old ++ (label.now ++ 32 ∷ (cost_text cost ++ 10 ∷ []))) }
{
    write!(text, "{label} ")?;
    push_cost(text, cost)?;
    text.push('\n')
}

/// The line of the plan.
fn push_plan(text: &mut String, plan: &Option<Expr>) -> Result<(), NoMemory>
    requires { MatchOption plan.now ⊤ (λ expr. IsNormal (length expr.shapes) expr.tokens) }
    ensures { OnOk result (string_bytes text.new
        ≡ string_bytes text.old ++ (codes "plan " ++ (plan_text plan.now ++ 10 ∷ []))) }
{
    text.push_str("plan ")?;
    match plan {
        None => text.push_str("none")?,
        Some(expr) => push_expr(text, expr)?,
    }
    text.push_str("\n")?;
    Ok(())
}

/// Adds the lines of the tags. They are put together in a row of bytes, which is added where it has no place for
/// another line.
fn push_tags(text: &mut Vec<u8>, tags: &TagList) -> Result<(), NoMemory>
    ensures fits { OnOk result (All FitsTag tags.now) }
    ensures text { OnOk result (text.new.items ≡ text.old.items ++ tags_text tags.now) }
{
    let mut row = [0; ROW];
    let mut end = 0;
    for run in tags.runs() {
        end = put_run(text, &mut row, end, run)?;
    }
    text.extend_from_slice(&row[..end])?;
    Ok(())
}

/// Adds the lines of a run. What the row holds ends at `start`, and a full row is added to the text. The answer is
/// where the lines end in the row.
#[inline(always)]
fn put_run(
    text: &mut Vec<u8>,
    row: &mut [u8; ROW],
    start: usize,
    run: &[Tag],
) -> Result<usize, NoMemory>
    requires within { start ≤ ROW }
    ensures fits { IfOk result (λ _. All FitsTag run.now) }
    ensures within { IfOk result (λ end. end ≤ ROW) }
    ensures text { IfOk result (λ end. text.new.items ++ take end row.new
        ≡ (text.old.items ++ take start row.old) ++ tags_text run.now) }
{
    let mut end = start;
    for tag in run {
        let at = make_room(text, row, end)?;
        end = put_tag(row, at, *tag);
    }
    Ok(end)
}

/// Adds the bytes of the row where it has no place for another line. The answer is where the next line begins.
#[inline(always)]
fn make_room(text: &mut Vec<u8>, row: &[u8; ROW], end: usize) -> Result<usize, NoMemory>
    requires within { end ≤ ROW }
    ensures room { IfOk result (λ at. at + LONGEST ≤ ROW) }
    ensures text { IfOk result (λ at. text.new.items ++ take at row.now
        ≡ text.old.items ++ take end row.now) }
{
    if end + LONGEST <= ROW {
        return Ok(end);
    }
    text.extend_from_slice(&row[..end])?;
    Ok(0)
}

/// Puts the line of a tag at a place of the row. The answer is where it ends.
#[inline(always)]
fn put_tag(row: &mut [u8; ROW], at: usize, tag: Tag) -> usize
    requires room { at + LONGEST ≤ ROW }
    ensures fits { FitsTag tag }
    ensures end { result ≤ at + LONGEST }
    ensures line { take result row.new ≡ take at row.old ++ (tag_text tag ++ 10 ∷ []) }
{
    if let Tag::Split(block) = tag {
        return put_split(row, at, block);
    }
    let (line, len) = short_line(tag);
    put(row, at, &line);
    at + len
}

/// The line of a tag that is no split, in the first of these bytes, and its length. All four are put whatever the
/// length, so that the copy takes no branch that depends on the tag. For a split the length is 0.
#[inline(always)]
fn short_line(tag: Tag) -> ([u8; CLOSED], usize)
    ensures { IsShortLine tag result.0 result.1 }
{
    match tag {
        Tag::Extend => ([b'E', b'\n', 0, 0], 2),
        Tag::Split(_) => ([0; CLOSED], 0),
        Tag::Closed(part) => ([b'C', b' ', letter(part), b'\n'], CLOSED),
        Tag::Open => ([b'O', b'\n', 0, 0], 2),
    }
}

/// Puts the line of a split.
fn put_split(row: &mut [u8; ROW], at: usize, block: u16) -> usize
    requires room { at + LONGEST ≤ ROW }
    ensures end { result ≤ at + LONGEST }
    ensures line { take result row.new ≡ take at row.old ++ (tag_text (Split block) ++ 10 ∷ []) }
{
    let mut digits = Buffer::new();
    let at = put(row, at, b"S ");
    let at = put(row, at, digits.format(block).as_bytes());
    put(row, at, b"\n")
}

/// Puts bytes at a place of the row. The answer is where they end.
#[inline(always)]
fn put(row: &mut [u8; ROW], at: usize, bytes: &[u8]) -> usize
    requires room { at + length bytes.now ≤ ROW }
    ensures end { result ≡ at + length bytes.now }
    ensures bytes { take result row.new ≡ take at row.old ++ bytes.now }
{
    let mut end = at;
    for byte in bytes {
        row[end] = *byte;
        end += 1;
    }
    end
}

/// The letter of a part.
fn letter(part: Part) -> u8
    ensures { result ∷ [] ≡ part_text part }
{
    match part {
        Part::Area => b'a',
        Part::Range => b'r',
        Part::Pair => b'p',
        Part::Hull => b'h',
        Part::Full => b'f',
    }
}
