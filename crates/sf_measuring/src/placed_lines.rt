//! From the lines of a placed file to one spot for each block.

ghost use Rattle.std.specs.Prelude.{◌≡◌, ◌≤◌, List, [], length, is_some, true, All, IfOk};
ghost use Rattle.sf_gsrc.specs.declared.output.Place.{Place};
ghost use Rattle.sf_names.specs.Values.{value_in};
ghost use Rattle.sf_place.specs.Spots.{HasNearCorner, IsByNumber};
ghost use Rattle.sf_designs.specs.Loads.{TellsNoLoad};
ghost use Rattle.sf_measuring.specs.Measured.{lines_named, side_in_spot, sized_spot, spot_said, spots_said};
ghost use Rattle.sf_designs.specs.Outcome.{Ends};
ghost use Rattle.sf_measuring.specs.PlacedLines.{AreIndexed, IsIndex, HasNearPlace, with_line};

use sf_designs::{Stop, named_fault};
use sf_gsrc::Place;
use sf_model::{Block, MOST_SIDE, Name, Spot};
use sf_names::{NameMap, TextHash};
use std::alloc::{AllocError, Global};

/// One more than the greatest side.
const PAST_SIDES: u64 = MOST_SIDE + 1;

/// The lines that have a name: none, the only one, by its number, or more.
#[derive(Clone, Copy)]
enum Lines {
    Without,
    One(usize),
    More,
}

/// One line more than these, of this number.
fn with_line(known: Lines, line: usize) -> Lines
    ensures { result ≡ with_line known line }
{
    match known {
        Lines::Without => Lines::One(line),
        _ => Lines::More,
    }
}

/// The hash of the names of blocks.
fn hash_blocks(blocks: &[Block]) -> TextHash {
    let mut hash = TextHash::new(b"");
    for block in blocks {
        hash.add(block.name.as_bytes());
    }
    hash
}

/// The names of the blocks, each without a line.
fn index_blocks(alloc: Global, blocks: &[Block]) -> Result<NameMap<'_, Lines>, AllocError>
    ensures { IfOk result (λ index. (lines : List Place) → IsIndex index blocks.now lines []) }
{
    let mut index = NameMap::new(alloc, hash_blocks(blocks), blocks.len());
    for block in blocks {
        index.insert(block.name.as_bytes(), Lines::Without)?;
    }
    Ok(index)
}

/// The lines by the names of the blocks: those with another name are passed over.
fn index_lines<'a>(
    alloc: Global,
    blocks: &'a [Block],
    lines: &'a [Place],
) -> Result<NameMap<'a, Lines>, AllocError>
    ensures { IfOk result (λ index. IsIndex index blocks.now lines.now lines.now) }
{
    let mut index = index_blocks(alloc, blocks)?;
    for i in (0..lines.len()).rev() {
        let line = &lines[i];
        let name = line.name.as_bytes();
        if let Some(known) = index.get(name) {
            index.insert(name, with_line(known, i))?;
        }
    }
    Ok(index)
}

/// A side as a spot has it: one past the limit where it is greater.
fn side_in_spot(side: u64) -> u32
    ensures { result ≡ side_in_spot side }
{
    side.min(PAST_SIDES) as u32
}

/// The spot of a block that has this line.
fn sized_spot(alloc: Global, block: u16, name: &Name, line: &Place) -> Result<Spot, Stop>
    requires near { HasNearPlace line.now }
    ensures spot { Ends (λ s. s) result (λ r. r ≡ sized_spot block name.now line.now line.now.size) }
    ensures near { IfOk result HasNearCorner }
    ensures block { IfOk result (λ s. s.block ≡ block) }
    ensures tells { TellsNoLoad result }
{
    match line.size {
        None => Err(named_fault(alloc, "MissingPlace", name)?),
        Some((w, h)) => Ok(Spot {
            block,
            x: line.x,
            y: line.y,
            w: side_in_spot(w),
            h: side_in_spot(h),
        }),
    }
}

/// The spot of a block by the lines that have its name.
fn spot_of(
    alloc: Global,
    block: u16,
    name: &Name,
    lines: &[Place],
    index: &NameMap<'_, Lines>,
) -> Result<Spot, Stop>
    requires known { is_some (value_in index.now name.now) ≡ true }
    requires indexed { AreIndexed index.now lines.now lines.now }
    requires near { All HasNearPlace lines.now }
    ensures spot { Ends (λ s. s) result (λ r. r ≡ spot_said block name.now (lines_named name.now lines.now)) }
    ensures near { IfOk result HasNearCorner }
    ensures block { IfOk result (λ s. s.block ≡ block) }
    ensures tells { TellsNoLoad result }
{
    match index.get(name.as_bytes()) {
        None => unreachable!(),
        Some(Lines::Without) => Err(named_fault(alloc, "MissingPlace", name)?),
        Some(Lines::More) => Err(named_fault(alloc, "DuplicateName", name)?),
        Some(Lines::One(line)) => sized_spot(alloc, block, name, &lines[line]),
    }
}

/// The spots of the blocks, by number.
pub fn place_blocks(alloc: Global, blocks: &[Block], lines: &[Place]) -> Result<Vec<Spot>, Stop>
    requires few { length blocks.now ≤ 320 }
    requires near { All HasNearPlace lines.now }
    ensures spots { Ends (λ v. v.items) result (λ r. r ≡ spots_said 0 blocks.now lines.now) }
    ensures one_each { IfOk result (λ v. length v.items ≡ length blocks.now) }
    ensures by_number { IfOk result (λ v. IsByNumber v.items) }
    ensures near { IfOk result (λ v. All HasNearCorner v.items) }
    ensures tells { TellsNoLoad result }
{
    let index = index_lines(alloc, blocks, lines)?;
    let mut spots = Vec::new(alloc);
    for number in 0..blocks.len() {
        let block = &blocks[number];
        let spot = spot_of(alloc, number as u16, &block.name, lines, &index)?;
        spots.push(spot)?;
    }
    Ok(spots)
}
