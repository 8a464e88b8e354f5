//! The reader of YAL files.

ghost use Rattle.std.specs.Prelude.{◌≡◌, ◌≤◌, ◌⊎◌, ℕ, List, length, Some, Ok, Err, IfOk, IfErr};
ghost use Rattle.sf_parts.specs.declared.raw.Parts.{Parts};
ghost use Rattle.sf_yal.specs.Standing.{StandsFor, HasFault};
ghost use Rattle.sf_yal.specs.declared.fault.YalFault.{YalFault as Fault};
ghost use Rattle.sf_yal.specs.declared.fault.YalFault.TheVariants.{NoMemory};
ghost use Rattle.sf_yal.specs.Statements.{statements, pieces, last_piece, line_of_last, without_end};
ghost use Rattle.sf_yal.specs.Reading.{Gives, start, after_statements, reading_in, ReadsAll};
ghost use Rattle.sf_yal.specs.Parts.{parts_by, parts_read, yal_read};

use crate::blocks::read_instances;
use crate::comments::hide_comments;
use crate::fault::YalFault;
use crate::found::{Found, Words};
use crate::nets::read_nets;
use crate::piece::{first_line, last_line_of, next_piece, next_word};
use sf_lex::{Scale, line_feeds};
use sf_parts::{NameList, Parts, RawBlockList, RawPadList};
use std::alloc::Global;
use std::mem;

/// What the statements say, and what stands behind the last of them.
fn read_statements<'a>(
    alloc: Global,
    text: &'a [u8],
    scale: Scale,
) -> Result<(Found<'a>, &'a [u8]), YalFault>
    requires { length text.now ≤ 67_108_864 }
    ensures { ReadsAll result (after_statements scale.per_unit start (statements 1 (pieces text.entry.now)))
        (last_piece (pieces text.entry.now)) }
{
    let mut found = Found::new(alloc, text);
    let mut rest = text;
    let mut line = 1;
    while let Some((piece, after)) = next_piece(rest) {
        let words = Words {
            text: piece,
            line: first_line(piece, line),
        };
        found.take(alloc, words, scale)?;
        line += line_feeds(piece);
        rest = after;
    }
    Ok((found, rest))
}

/// The parts, once the whole text was read. The pads are taken out of what was found.
fn into_parts(alloc: Global, found: &mut Found, parent: usize) -> Result<Parts, YalFault>
    ensures { Gives result (parts_by (reading_in found.old) (Some parent)) }
{
    let blocks = read_instances(alloc, &found.instances, &found.names, &found.sizes, parent)?;
    let nets = read_nets(alloc, &found.instances, &found.pad_names)?;
    Ok(Parts {
        blocks: RawBlockList::from_vec(blocks),
        pads: RawPadList::from_vec(mem::replace(&mut found.pads, Vec::new(alloc))),
        nets,
        strangers: NameList::from_vec(Vec::new(alloc)),
        pads_in: true,
    })
}

/// The parts, where the text ended between statements with no module open; else its end is a fault.
#[tactic(auto, unfolding(crate::specs::Parts::parts_read))]
fn parts_at_end(
    alloc: Global,
    found: &mut Found,
    ended: bool,
    hidden: &[u8],
) -> Result<Parts, YalFault>
    ensures { let last = line_of_last (without_end hidden.now) in
        Gives result (parts_read last ended (reading_in found.old)) }
{
    if !ended || found.current.is_some() {
        return Err(YalFault::Truncated(last_line_of(hidden)));
    }
    match found.parent {
        None => Err(YalFault::NoParent),
        Some(parent) => into_parts(alloc, found, parent),
    }
}

/// The parts for which a YAL text stands, or its first fault, as it is read.
#[tactic(auto, unfolding(crate::specs::Parts::yal_read))]
fn read_exactly(alloc: Global, text: &[u8], scale: Scale) -> Result<Parts, YalFault>
    requires { length text.now ≤ 67_108_864 }
    ensures { Gives result (yal_read scale.per_unit text.now) }
{
    let (hidden, open) = hide_comments(alloc, text)?;
    let (mut found, rest) = read_statements(alloc, &hidden, scale)?;
    let ended = !open && next_word(rest).is_none();
    parts_at_end(alloc, &mut found, ended, &hidden)
}

/// The parts for which a YAL text stands, or its first fault. Lengths are taken times the scale, so they
/// come out in whole scaled units. All pads have a place, no name is a stranger, and the pads are in.
/// The box of the parent is read and sets no outline. The format is that of the MCNC benchmark circuits;
/// a terminal of the parent with two numbers behind its kind is taken for a pad.
pub fn read_yal(alloc: Global, text: &[u8], scale: u64) -> Result<Parts, YalFault>
    requires scale_low { 1 ≤ scale }
    requires scale_high { scale ≤ 1000 }
    requires size { length text.now ≤ 67_108_864 }
    // What is read is what the text stands for.
    ensures found { IfOk result (StandsFor scale text.now) }
    // What the text stands for is read, unless memory runs out.
    ensures only { (out : Parts) → StandsFor scale text.now out → Gives result (Ok out) }
    // A fault is the first one of the text, unless memory runs out.
    ensures refused { IfErr result (λ fault. (fault ≡ NoMemory) ⊎ HasFault scale text.now fault) }
    // The first fault of the text is answered, unless memory runs out.
    ensures faulty { (fault : Fault) → HasFault scale text.now fault → Gives result (Err fault) }
    // What is read, or which fault it is.
    ensures exact { Gives result (yal_read scale text.now) }
{
    read_exactly(alloc, text, Scale { per_unit: scale })
}

/// A text stands for at most one output, or has one first fault.
pub fn stands_for_one()
    ensures output { (scale : ℕ) (text : List ℕ) (a b : Parts)
        → StandsFor scale text a → StandsFor scale text b → a ≡ b }
    ensures fault { (scale : ℕ) (text : List ℕ) (f g : Fault)
        → HasFault scale text f → HasFault scale text g → f ≡ g }
    ensures not_both { (scale : ℕ) (text : List ℕ) (out : Parts) (f : Fault)
        → StandsFor scale text out → HasFault scale text f → ⊥ }
{}
