//! The reader of weights files: the weights of nets, by their numbers.

ghost use Rattle.std.specs.Prelude.{◌≡◌, ◌≤◌, ℕ, List, None, Ok, IfOk, length, map, replicate};
ghost use Rattle.std.specs.Option.{option_map, unwrap_or};
ghost use Rattle.sf_lex.specs.Scan.{line_of, numbered_rest};
ghost use Rattle.sf_lex.specs.Text.{words};
ghost use Rattle.sf_lex.specs.Gap.{is_gap};
ghost use Rattle.sf_lex.specs.Number.{decimal_read};
ghost use Rattle.sf_gsrc.specs.Blocks.{content};
ghost use Rattle.sf_gsrc.specs.Weights.{number_on, two_words, weights_read, GivesWeights, WeightsStandFor};
ghost use Rattle.sf_gsrc.specs.WeightsKept.{TakesWeight, TakesWeights};

use crate::content::next_content;
use crate::fault::WeightFault;
use sf_lex::{Gap, LENGTH_LIMIT, Scan, Word, next_field, read_decimal};
use std::alloc::{AllocError, Global};

/// The greatest weight of a net.
const WEIGHT_LIMIT: u64 = 255;

/// The words of a line of two words.
#[tactic(auto, unfolding(crate::specs::Weights::two_words))]
fn split_pair(line: &[u8]) -> Option<(&[u8], &[u8])>
    ensures { option_map (λ p. (p.0.now, p.1.now)) result ≡ two_words (words (is_gap Gap.Blanks) line.now) }
{
    let (number, rest) = next_field(line, Gap::Blanks)?;
    let (weight, rest) = next_field(rest, Gap::Blanks)?;
    if next_field(rest, Gap::Blanks).is_some() {
        return None;
    }
    Some((number, weight))
}

/// A whole number up to this limit, or its fault at this line.
fn read_number(word: &[u8], line: u64, limit: u64) -> Result<u64, WeightFault>
    requires { limit ≤ LENGTH_LIMIT }
    ensures value { result ≡ number_on line (decimal_read 1 limit word.now) }
    ensures bound { IfOk result (λ n. n ≤ limit) }
{
    match read_decimal(word, 1, limit) {
        Ok(number) => Ok(number),
        Err(fault) => Err(WeightFault::BadNumber(line, fault)),
    }
}

/// Keeps the weight that a line gives to a net.
fn take_line(kept: &mut [Option<u8>], line: &Word) -> Result<(), WeightFault>
    ensures { TakesWeight result (length kept.old) kept.old kept.new (line_of line.now) }
{
    let Some((number, weight)) = split_pair(line.text) else {
        return Err(WeightFault::BadLine(line.line));
    };
    let net = read_number(number, line.line, LENGTH_LIMIT)?;
    if net >= kept.len() as u64 {
        return Err(WeightFault::UnknownNet(line.line, net));
    }
    let place = net as usize;
    if kept[place].is_some() {
        return Err(WeightFault::RepeatedNet(line.line, net));
    }
    let weight = read_number(weight, line.line, WEIGHT_LIMIT)?;
    kept[place] = Some(weight as u8);
    Ok(())
}

/// Keeps the weights that the lines give, up to the first fault.
fn take_lines(kept: &mut [Option<u8>], scan: &mut Scan) -> Result<(), WeightFault>
    ensures { TakesWeights result (length kept.old) kept.old kept.new (content (numbered_rest scan.old)) }
{
    while let Some(line) = next_content(scan) {
        take_line(kept, &line)?;
    }
    Ok(())
}

/// No weight for any net.
fn none_said(alloc: Global, nets: usize) -> Result<Vec<Option<u8>>, AllocError>
    ensures { IfOk result (λ kept. kept.items ≡ replicate nets None) }
{
    vec![in alloc; None; nets]
}

/// The weights, which are 1 where no line gives one.
fn or_one(alloc: Global, kept: &[Option<u8>]) -> Result<Vec<u8>, AllocError>
    ensures { IfOk result (λ weights. weights.items ≡ map (λ o. unwrap_or o 1) kept.now) }
{
    kept.iter().map(|weight| weight.unwrap_or(1)).collect(alloc)
}

/// What the text stands for, or its first fault.
#[tactic(auto, unfolding(crate::specs::Weights::weights_read))]
fn read_exactly(alloc: Global, text: &[u8], nets: u64) -> Result<Vec<u8>, WeightFault>
    ensures { GivesWeights result (weights_read nets text.now) }
{
    let mut kept = none_said(alloc, nets as usize)?;
    let mut scan = Scan::new(text);
    take_lines(&mut kept, &mut scan)?;
    let weights = or_one(alloc, &kept)?;
    Ok(weights)
}

/// The weights of so many nets for which a weights file stands, or its first fault. A net is named by its
/// number from 0, and one without a line has the weight 1.
pub fn read_weights(alloc: Global, text: &[u8], nets: u64) -> Result<Vec<u8>, WeightFault>
    // What is read is what the text stands for.
    ensures stands { IfOk result (λ weights. WeightsStandFor text.now nets weights.items) }
    // What the text stands for is read, unless memory runs out.
    ensures only { (out : List ℕ) → WeightsStandFor text.now nets out → GivesWeights result (Ok out) }
    // Which fault it is.
    ensures exact { GivesWeights result (weights_read nets text.now) }
    // There is a weight for each net.
    ensures one_each { IfOk result (λ weights. length weights.items ≡ nets) }
{
    read_exactly(alloc, text, nets)
}

/// A weights file stands for at most one list of weights.
pub fn weights_stand_for_one()
    ensures { (text : List ℕ) (nets : ℕ) (a b : List ℕ) → WeightsStandFor text nets a
        → WeightsStandFor text nets b → a ≡ b }
{}
