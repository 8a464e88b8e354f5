//! Refusals of inputs, each with the line that tells why.

ghost use Rattle.std.specs.Prelude.{◌≡◌, ◌≢◌, ◌++◌, ◌∷◌, [], IfOk, codes, string_bytes};
ghost use Rattle.std.specs.Fmt.{decimal};
ghost use Rattle.sf_designs.specs.Outcome.{Refuses};
ghost use Rattle.sf_designs.specs.Refusals.{bad_input, over_limit, number_fault, gsrc_refusal};
ghost use Rattle.sf_designs.specs.Refusals.{weight_refusal, yal_refusal, limit_word, build_refusal};
ghost use Rattle.sf_designs.specs.Refusals.{design_fault};

use crate::stop::Stop;
use sf_gsrc::{GsrcFault, WeightFault};
use sf_io::Status;
use sf_lex::NumberFault;
use sf_model::Name;
use sf_parts::{BuildFault, Limit};
use sf_yal::YalFault;
use std::alloc::{AllocError as NoMemory, Global};

/// A fault that carries nothing.
pub fn bare_fault(alloc: Global, source: &str, line: u64, fault: &str) -> Result<Stop, NoMemory>
    ensures { IfOk result (λ stop. Refuses stop (bad_input source.now line (fault.now ∷ []))) }
{
    let text = format!(in alloc; "error BadInput {source} {line} {fault}\n")?;
    Ok(Stop::Refused(Status::BadInput, text.into_bytes()))
}

/// A fault that carries a word.
pub fn worded_fault(
    alloc: Global,
    source: &str,
    line: u64,
    fault: &str,
    word: &[u8],
) -> Result<Stop, NoMemory>
    ensures { IfOk result (λ stop. Refuses stop (bad_input source.now line (fault.now ∷ word.now ∷ []))) }
{
    let head = format!(in alloc; "error BadInput {source} {line} {fault} ")?;
    let text = with_word(head, word)?;
    Ok(Stop::Refused(Status::BadInput, text))
}

/// The line that begins so and ends with a word of any bytes.
fn with_word(head: String, word: &[u8]) -> Result<Vec<u8>, NoMemory>
    ensures { IfOk result (λ text. text.items ≡ string_bytes head ++ (word.now ++ 10 ∷ [])) }
{
    let mut text = head.into_bytes();
    text.extend_from_slice(word)?;
    text.push(b'\n')?;
    Ok(text)
}

/// A count that differs: what is said, and what was found.
pub fn counted_fault(
    alloc: Global,
    source: &str,
    line: u64,
    fault: &str,
    said: u64,
    found: u64,
) -> Result<Stop, NoMemory>
    ensures { IfOk result (λ stop.
        Refuses stop (bad_input source.now line (fault.now ∷ decimal said ∷ decimal found ∷ []))) }
{
    let text = format!(in alloc; "error BadInput {source} {line} {fault} {said} {found}\n")?;
    Ok(Stop::Refused(Status::BadInput, text.into_bytes()))
}

/// A quantity past its limit.
pub fn over_limit(alloc: Global, quantity: &str, found: u64, limit: u64) -> Result<Stop, NoMemory>
    ensures { IfOk result (λ stop. Refuses stop (over_limit quantity.now found limit)) }
{
    let text = format!(in alloc; "error OverLimit {quantity} {found} {limit}\n")?;
    Ok(Stop::Refused(Status::OverLimit, text.into_bytes()))
}

/// What is wrong with a number, in a word.
fn number_word(fault: NumberFault) -> &'static str
    ensures { result.now ≡ number_fault fault }
{
    match fault {
        NumberFault::NotNumber => "NotNumber",
        NumberFault::TooManyDigits => "TooManyDigits",
        NumberFault::NotWhole => "NotWhole",
        NumberFault::TooLarge => "TooLarge",
    }
}

/// A word that is no number that may stand there.
fn number_fault(
    alloc: Global,
    source: &str,
    line: u64,
    fault: NumberFault,
) -> Result<Stop, NoMemory>
    ensures { IfOk result (λ stop.
        Refuses stop (bad_input source.now line (codes "BadNumber" ∷ number_fault fault ∷ []))) }
{
    let word = number_word(fault);
    worded_fault(alloc, source, line, "BadNumber", word.as_bytes())
}

/// The first fault of a GSRC text of this kind.
pub fn gsrc_fault(alloc: Global, source: &str, fault: GsrcFault) -> Result<Stop, NoMemory>
    ensures refused { IfOk result (λ stop. Refuses stop (gsrc_refusal source.now fault)) }
    ensures real { IfOk result (λ stop. fault ≢ GsrcFault.NoMemory) }
{
    match fault {
        GsrcFault::BadTitle(line) => bare_fault(alloc, source, line, "BadTitle"),
        GsrcFault::BadLine(line) => bare_fault(alloc, source, line, "BadLine"),
        GsrcFault::BadNumber(line, number) => number_fault(alloc, source, line, number),
        GsrcFault::CountDiffers(line, said, found) => {
            counted_fault(alloc, source, line, "CountDiffers", said, found)
        }
        GsrcFault::BadDegree(line, said, found) => {
            counted_fault(alloc, source, line, "BadDegree", said, found)
        }
        GsrcFault::ZeroSide(line) => bare_fault(alloc, source, line, "ZeroSide"),
        GsrcFault::Truncated(line) => bare_fault(alloc, source, line, "Truncated"),
        GsrcFault::NoMemory => Err(NoMemory),
    }
}

/// A fault that carries a number.
fn numbered_fault(
    alloc: Global,
    source: &str,
    line: u64,
    fault: &str,
    number: u64,
) -> Result<Stop, NoMemory>
    ensures { IfOk result (λ stop.
        Refuses stop (bad_input source.now line (fault.now ∷ decimal number ∷ []))) }
{
    let text = format!(in alloc; "error BadInput {source} {line} {fault} {number}\n")?;
    Ok(Stop::Refused(Status::BadInput, text.into_bytes()))
}

/// The first fault of a weights file.
pub fn weight_fault(alloc: Global, fault: WeightFault) -> Result<Stop, NoMemory>
    ensures refused { IfOk result (λ stop. Refuses stop (weight_refusal fault)) }
    ensures real { IfOk result (λ stop. fault ≢ WeightFault.NoMemory) }
{
    match fault {
        WeightFault::BadLine(line) => bare_fault(alloc, "weights", line, "BadLine"),
        WeightFault::BadNumber(line, number) => number_fault(alloc, "weights", line, number),
        WeightFault::UnknownNet(line, net) => {
            numbered_fault(alloc, "weights", line, "UnknownNet", net)
        }
        WeightFault::RepeatedNet(line, net) => {
            numbered_fault(alloc, "weights", line, "RepeatedNet", net)
        }
        WeightFault::NoMemory => Err(NoMemory),
    }
}

/// The first fault of a YAL text.
pub fn yal_fault(alloc: Global, fault: YalFault) -> Result<Stop, NoMemory>
    ensures refused { IfOk result (λ stop. Refuses stop (yal_refusal fault)) }
    ensures real { IfOk result (λ stop. fault ≢ YalFault.NoMemory) }
{
    match fault {
        YalFault::Truncated(line) => bare_fault(alloc, "yal", line, "Truncated"),
        YalFault::BadStatement(line) => bare_fault(alloc, "yal", line, "BadStatement"),
        YalFault::BadNumber(line, number) => number_fault(alloc, "yal", line, number),
        YalFault::ZeroSide(line) => bare_fault(alloc, "yal", line, "ZeroSide"),
        YalFault::NoParent => bare_fault(alloc, "yal", 0, "NoParent"),
        YalFault::TwoParents(line) => bare_fault(alloc, "yal", line, "TwoParents"),
        YalFault::UnknownModule(line, name) => {
            worded_fault(alloc, "yal", line, "UnknownModule", name.as_bytes())
        }
        YalFault::NoMemory => Err(NoMemory),
    }
}

/// The quantity that passes its limit, in a word.
fn limit_word(limit: Limit) -> &'static str
    ensures { result.now ≡ limit_word limit }
{
    match limit {
        Limit::Blocks => "blocks",
        Limit::Pads => "pads",
        Limit::Nets => "nets",
        Limit::Pins => "pins",
        Limit::Side => "side",
        Limit::Area => "area",
        Limit::Coordinate => "coordinate",
    }
}

/// A fault of the design as a whole that carries a name.
pub fn named_fault(alloc: Global, fault: &str, name: &Name) -> Result<Stop, NoMemory>
    ensures { IfOk result (λ stop. Refuses stop (design_fault (fault.now ∷ name.now ∷ []))) }
{
    worded_fault(alloc, "design", 0, fault, name.as_bytes())
}

/// Why parts become no design.
pub fn build_fault(alloc: Global, fault: BuildFault) -> Result<Stop, NoMemory>
    ensures refused { IfOk result (λ stop. Refuses stop (build_refusal fault)) }
    ensures real { IfOk result (λ stop. fault ≢ BuildFault.NoMemory) }
{
    match fault {
        BuildFault::DuplicateName(name) => named_fault(alloc, "DuplicateName", &name),
        BuildFault::UnknownName(name) => named_fault(alloc, "UnknownName", &name),
        BuildFault::NoBlocks => bare_fault(alloc, "design", 0, "NoBlocks"),
        BuildFault::NoShape(name) => named_fault(alloc, "NoShape", &name),
        BuildFault::OverLimit(quantity, found, limit) => {
            over_limit(alloc, limit_word(quantity), found, limit)
        }
        BuildFault::MissingPlace(name) => named_fault(alloc, "MissingPlace", &name),
        BuildFault::NoMemory => Err(NoMemory),
    }
}
