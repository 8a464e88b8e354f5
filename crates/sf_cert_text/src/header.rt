//! The header of a certificate's text, line by line.

ghost use Rattle.std.specs.Prelude.{◌≡◌, ◌≢◌, ◌==◌, [], ◌∷◌, if◌then◌else◌, IfOk, IfErr, IsTrue, MatchOption};
ghost use Rattle.std.specs.Prelude.{Ok, Err, Some, None, ⊤};
ghost use Rattle.std.specs.Option.{option_copied};
ghost use Rattle.sf_lex.specs.Whole.{plain_read};
ghost use Rattle.sf_lex.specs.Scan.{numbered_rest, line_of, last_line_of};
ghost use Rattle.sf_model.specs.Paths.{all_lead};
ghost use Rattle.sf_model.specs.declared.TheConstants.{MAX};
ghost use Rattle.sf_polish.specs.Writable.{IsWritable};
ghost use Rattle.sf_cert_text.specs.declared.fault.CertFault.TheVariants.{BadHeader, NoMemory};
ghost use Rattle.sf_certificate.specs.Form.{no_plan};
ghost use Rattle.sf_cert_text.specs.Reading.{value_in, version_of, version_of_word, version_in, number_in};
ghost use Rattle.sf_cert_text.specs.Reading.{cost_of_word, cost_in, word_in, plan_said, plan_in, line_read};
ghost use Rattle.sf_cert_text.specs.Reading.{header_read, exactly, ReadsLine};

use crate::fault::CertFault;
use crate::path_reading::read_paths;
use crate::version::Version;
use sf_expr_text::{ExprFault, read_expr};
use sf_lex::{Gap, Scan, Word, last_line, next_field, read_plain, split_word};
use sf_model::{MAX, Paths};
use sf_polish::Expr;
use std::alloc::Global;

/// What the header says.
#[derive(Drop)]
pub struct Header {
    pub version: Version,
    pub plan: Option<Expr>,
    pub cost: u64,
    pub bound: u64,
    pub paths: Paths,
}

/// The lines of the header.
pub fn read_header(
    alloc: Global,
    scan: &mut Scan,
    text: &[u8],
    blocks: u16,
) -> Result<Header, CertFault>
    ensures header { IfOk result (λ h. header_read blocks (last_line_of text.now) (numbered_rest scan.old)
        ≡ Ok (record {
          version = h.version;
          plan = h.plan;
          cost = h.cost;
          bound = h.bound;
          paths = h.paths;
          others = numbered_rest scan.new;
        })) }
    ensures agrees { IfOk result (λ h. no_plan h.plan ≡ (h.cost == MAX)) }
    ensures lead { IfOk result (λ h. IsTrue (all_lead h.paths)) }
    ensures writable { IfOk result (λ h. MatchOption h.plan ⊤ (IsWritable blocks)) }
    ensures fault { IfErr result (λ e. e ≢ NoMemory
        → header_read blocks (last_line_of text.now) (numbered_rest scan.old) ≡ Err e) }
{
    let version = read_version(scan, text, b"slicing-certificate")?;
    read_number(scan, text, b"blocks", blocks)?;
    let cost = read_cost(scan, text, b"cost")?;
    let bound = read_cost(scan, text, b"bound")?;
    let plan = read_plan(alloc, scan, text, blocks, cost)?;
    let paths = read_paths(alloc, scan, text, version)?;
    read_only(scan, text, b"tree")?;
    Ok(Header {
        version,
        plan,
        cost,
        bound,
        paths,
    })
}

/// A line of a label and a version.
fn read_version(scan: &mut Scan, text: &[u8], label: &[u8]) -> Result<Version, CertFault>
    ensures { ReadsLine (last_line_of text.now) (version_in label.now) (λ version. version)
        (numbered_rest scan.old) (numbered_rest scan.new) result }
{
    let line = next_line(scan, text)?;
    version_in(line.text, label).ok_or(CertFault::BadHeader(line.line))
}

/// A line of a label and this number.
fn read_number(scan: &mut Scan, text: &[u8], label: &[u8], number: u16) -> Result<(), CertFault>
    ensures { ReadsLine (last_line_of text.now) (number_in label.now number) (λ _. number)
        (numbered_rest scan.old) (numbered_rest scan.new) result }
{
    let line = next_line(scan, text)?;
    fault_unless(is_number(line.text, label, number), line.line)
}

/// A line of a label and a cost.
fn read_cost(scan: &mut Scan, text: &[u8], label: &[u8]) -> Result<u64, CertFault>
    ensures { ReadsLine (last_line_of text.now) (cost_in label.now) (λ cost. cost)
        (numbered_rest scan.old) (numbered_rest scan.new) result }
{
    let line = next_line(scan, text)?;
    cost_in(line.text, label).ok_or(CertFault::BadHeader(line.line))
}

/// A line of one word.
fn read_only(scan: &mut Scan, text: &[u8], word: &[u8]) -> Result<(), CertFault>
    ensures { ReadsLine (last_line_of text.now) (word_in word.now) (λ _. word.now)
        (numbered_rest scan.old) (numbered_rest scan.new) result }
{
    let line = next_line(scan, text)?;
    fault_unless(is_only(line.text, word), line.line)
}

/// The fault of a line, unless it stands as it is to stand.
fn fault_unless(stands: bool, line: u64) -> Result<(), CertFault>
    ensures { result ≡ (if stands then Ok tt else Err (BadHeader line)) }
{
    if stands {
        Ok(())
    } else {
        Err(CertFault::BadHeader(line))
    }
}

/// The line of the plan: none exactly where there is no cost.
fn read_plan(
    alloc: Global,
    scan: &mut Scan,
    text: &[u8],
    blocks: u16,
    cost: u64,
) -> Result<Option<Expr>, CertFault>
    ensures line { IfOk result
        (λ plan. line_read (last_line_of text.now) (plan_in blocks cost) (numbered_rest scan.old)
        ≡ Ok (plan, numbered_rest scan.new)) }
    ensures agrees { IfOk result (λ plan. no_plan plan ≡ (cost == MAX)) }
    ensures writable { IfOk result (λ plan. MatchOption plan ⊤ (IsWritable blocks)) }
    ensures fault { IfErr result (λ e. e ≢ NoMemory
        → line_read (last_line_of text.now) (plan_in blocks cost) (numbered_rest scan.old) ≡ Err e) }
{
    let line = next_line(scan, text)?;
    let plan = plan_of_line(alloc, &line, blocks)?;
    if plan.is_none() == (cost == MAX) {
        Ok(plan)
    } else {
        Err(CertFault::BadHeader(line.line))
    }
}

/// The plan that a line says behind its label.
fn plan_of_line(alloc: Global, line: &Word, blocks: u16) -> Result<Option<Expr>, CertFault>
    ensures plan { IfOk result (λ plan. plan_said blocks line.now.text.now ≡ Some plan) }
    ensures writable { IfOk result (λ plan. MatchOption plan ⊤ (IsWritable blocks)) }
    ensures fault { IfErr result (λ e. e ≢ NoMemory
        → (e ≡ BadHeader line.now.line) × (plan_said blocks line.now.text.now ≡ None)) }
{
    let (label, rest) = split_word(line.text, Gap::Blanks);
    if label != b"plan".as_slice() {
        return Err(CertFault::BadHeader(line.line));
    }
    if is_only(rest, b"none") {
        return Ok(None);
    }
    match read_expr(alloc, rest, blocks) {
        Ok(expr) => Ok(Some(expr)),
        Err(ExprFault::NoMemory) => Err(CertFault::NoMemory),
        Err(_) => Err(CertFault::BadHeader(line.line)),
    }
}

/// The next line; one that isn't there is missed at the last line of the text.
pub fn next_line<'a>(scan: &mut Scan<'a>, text: &[u8]) -> Result<Word<'a>, CertFault>
    ensures line { IfOk result (λ line. numbered_rest scan.old ≡ line_of line ∷ numbered_rest scan.new) }
    ensures fault { IfErr result (λ e. (e ≡ BadHeader (last_line_of text.now))
        × (numbered_rest scan.old ≡ [])) }
{
    match scan.next_line() {
        Some(line) => Ok(line),
        None => Err(CertFault::BadHeader(last_line(text))),
    }
}

/// The word behind a label, in a line of the two.
pub fn value_in<'a>(line: &'a [u8], label: &[u8]) -> Option<&'a [u8]>
    ensures { option_copied result ≡ value_in label.now line.now }
{
    let (first, rest) = next_field(line, Gap::Blanks)?;
    let (value, rest) = next_field(rest, Gap::Blanks)?;
    if next_field(rest, Gap::Blanks).is_none() && first == label {
        Some(value)
    } else {
        None
    }
}

/// The version of a line of a label and a version.
fn version_in(line: &[u8], label: &[u8]) -> Option<Version>
    ensures { result ≡ version_in label.now line.now }
{
    match value_in(line, label) {
        Some(value) => version_of_word(value),
        None => None,
    }
}

/// The version that a word names.
fn version_of_word(word: &[u8]) -> Option<Version>
    ensures { result ≡ version_of_word word.now }
{
    match read_plain(word, 3) {
        Some(number) => version_of(number),
        None => None,
    }
}

/// The version that a number names.
fn version_of(number: u64) -> Option<Version>
    ensures { result ≡ version_of number }
{
    match number {
        1 => Some(Version::One),
        2 => Some(Version::Two),
        3 => Some(Version::Three),
        _ => None,
    }
}

/// Whether a line has a label and this number.
fn is_number(line: &[u8], label: &[u8], number: u16) -> bool
    ensures { (if result then Some number else None) ≡ number_in label.now number line.now }
{
    match value_in(line, label) {
        Some(value) => is_plain(value, number),
        None => false,
    }
}

/// Whether a word is this number, without zeros at the front.
fn is_plain(word: &[u8], number: u16) -> bool
    ensures { (if result then Some number else None) ≡ exactly number (plain_read number word.now) }
{
    match read_plain(word, u64::from(number)) {
        Some(value) => value == u64::from(number),
        None => false,
    }
}

/// The cost of a line of a label and a cost.
fn cost_in(line: &[u8], label: &[u8]) -> Option<u64>
    ensures { result ≡ cost_in label.now line.now }
{
    match value_in(line, label) {
        Some(value) => cost_of_word(value),
        None => None,
    }
}

/// The cost that a word names, `MAX` for `none`.
fn cost_of_word(word: &[u8]) -> Option<u64>
    ensures { result ≡ cost_of_word word.now }
{
    if word == b"none".as_slice() {
        Some(MAX)
    } else {
        read_plain(word, MAX - 1)
    }
}

/// Whether the line is this word alone.
pub fn is_only(line: &[u8], word: &[u8]) -> bool
    ensures { (if result then Some word.now else None) ≡ word_in word.now line.now }
{
    match next_field(line, Gap::Blanks) {
        Some((first, rest)) => next_field(rest, Gap::Blanks).is_none() && first == word,
        None => false,
    }
}
