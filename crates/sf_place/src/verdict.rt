//! Whether rectangles are a floorplan of a design.

ghost use Rattle.std.specs.Prelude.{◌≡◌, ◌<◌, ◌↔◌, length, All, AllPairs, IsTrue, MatchOption, Contains};
ghost use Rattle.std.specs.Prelude.{pos, neg_ℤ, ◌+ℤ◌, ◌≤ℤ◌, ◌<ℤ◌};
ghost use Rattle.sf_model.specs.Tree.{Overlaps};
ghost use Rattle.sf_model.specs.Legal.{block_count, shapes_of};
ghost use Rattle.sf_place.specs.Spots.{IsByNumber, HasNearCorner};
ghost use Rattle.sf_place.specs.Verdict.{AreLegal, IsVerdict, IsListed, LiesIn, IsFirstWithout};
ghost use Rattle.sf_place.specs.Verdict.{OverlapsNoLater, IsFirstOverlapping, IsLeastPair};

use crate::placing::spot_at;
use sf_model::{Design, Outline, Shape, Spot};

/// What a placement is, or the first fault that it has, with the numbers of the blocks that show it: a
/// block whose size isn't in its list, else one that isn't in the outline, else two that overlap, the lower
/// number first. Listed sizes have no side of 0, so a legal placement has none.
#[derive(Clone, Copy, Debug, PartialEq, Eq)]
pub enum Verdict {
    Legal,
    Unlisted(u16),
    Outside(u16),
    Overlap(u16, u16),
}

/// Judges a placement in scaled whole units, of one rectangle for each block, by number. Rectangles that
/// share no more than edges don't overlap.
pub fn check_spots(design: &Design, spots: &[Spot]) -> Verdict
    requires one_each { length spots.now ≡ block_count design.now }
    requires by_number { IsByNumber spots.now }
    requires near { All HasNearCorner spots.now }
    ensures verdict { IsVerdict design.now spots.now result }
    ensures legal { AreLegal design.now spots.now → result ≡ Verdict.Legal }
{
    if let Some(block) = first_unlisted(design, spots) {
        return Verdict::Unlisted(block);
    }
    if let Some(block) = first_outside(design.outline, spots) {
        return Verdict::Outside(block);
    }
    match first_overlap(spots) {
        Some((first, second)) => Verdict::Overlap(first, second),
        None => Verdict::Legal,
    }
}

/// The first block whose size isn't in its list.
#[tactic(auto, using(crate::proofs::Numbered::all_by_number))]
fn first_unlisted(design: &Design, spots: &[Spot]) -> Option<u16>
    requires one_each { length spots.now ≡ block_count design.now }
    requires by_number { IsByNumber spots.now }
    ensures { MatchOption result (All (IsListed design.now) spots.now)
        (IsFirstWithout (IsListed design.now) spots.now) }
{
    for block in 0..spots.len() {
        let spot = spot_at(spots, block);
        let shape = Shape {
            w: spot.w,
            h: spot.h,
        };
        if !is_listed(design, spot.block, shape) {
            return Some(spot.block);
        }
    }
    None
}

/// Whether a shape is in the list of a block.
pub fn is_listed(design: &Design, block: u16, shape: Shape) -> bool
    requires { block < block_count design.now }
    ensures { IsTrue result ↔ Contains (shapes_of design.now block) shape }
{
    design.shapes_of(block).contains(&shape)
}

/// The first block that isn't in the outline.
#[tactic(auto, using(crate::proofs::Numbered::all_by_number))]
fn first_outside(outline: Outline, spots: &[Spot]) -> Option<u16>
    requires by_number { IsByNumber spots.now }
    requires near { All HasNearCorner spots.now }
    ensures { MatchOption result (All (LiesIn outline) spots.now)
        (IsFirstWithout (LiesIn outline) spots.now) }
{
    for block in 0..spots.len() {
        let spot = spot_at(spots, block);
        if !lies_in(outline, spot) {
            return Some(spot.block);
        }
    }
    None
}

/// Whether a rectangle lies in the outline.
fn lies_in(outline: Outline, spot: Spot) -> bool
    requires { HasNearCorner spot }
    ensures { IsTrue result ↔ LiesIn outline spot }
{
    lies_between(spot.x, spot.w, outline.w) && lies_between(spot.y, spot.h, outline.h)
}

/// Whether a side that begins at `from` lies between 0 and `end`.
fn lies_between(from: i64, side: u32, end: u32) -> bool
    requires low { neg_ℤ (pos 9000000000000000) ≤ℤ from }
    requires high { from ≤ℤ pos 9000000000000000 }
    ensures { IsTrue result ↔ (pos 0 ≤ℤ from) × ((from +ℤ pos side) ≤ℤ pos end) }
{
    from >= 0 && from + i64::from(side) <= i64::from(end)
}

/// The first two blocks whose spots overlap.
#[tactic(auto, using(crate::proofs::Numbered::apart_by_number))]
fn first_overlap(spots: &[Spot]) -> Option<(u16, u16)>
    requires by_number { IsByNumber spots.now }
    requires near { All HasNearCorner spots.now }
    ensures { MatchOption result (AllPairs (λ s t. ¬ (Overlaps s t)) spots.now)
        (λ p. IsLeastPair spots.now p.0 p.1) }
{
    for block in 0..spots.len() {
        if let Some(other) = first_overlapping(spots, block) {
            return Some((spot_at(spots, block).block, other));
        }
    }
    None
}

/// The first block after this one whose spot overlaps its spot.
fn first_overlapping(spots: &[Spot], block: usize) -> Option<u16>
    requires by_number { IsByNumber spots.now }
    requires near { All HasNearCorner spots.now }
    requires in_range { block < length spots.now }
    ensures { MatchOption result (OverlapsNoLater spots.now block) (IsFirstOverlapping spots.now block) }
{
    let spot = spot_at(spots, block);
    for later in block + 1..spots.len() {
        let other = spot_at(spots, later);
        if overlaps(spot, other) {
            return Some(other.block);
        }
    }
    None
}

/// Whether two rectangles share a point inside both.
fn overlaps(one: Spot, other: Spot) -> bool
    requires near { HasNearCorner one }
    requires other_near { HasNearCorner other }
    ensures { IsTrue result ↔ Overlaps one other }
{
    meets(one.x, one.w, other.x, other.w) && meets(one.y, one.h, other.y, other.h)
}

/// Whether two sides of one direction share more than an end.
fn meets(from: i64, side: u32, other_from: i64, other_side: u32) -> bool
    requires low { neg_ℤ (pos 9000000000000000) ≤ℤ from }
    requires high { from ≤ℤ pos 9000000000000000 }
    requires other_low { neg_ℤ (pos 9000000000000000) ≤ℤ other_from }
    requires other_high { other_from ≤ℤ pos 9000000000000000 }
    ensures { IsTrue result ↔ (from <ℤ (other_from +ℤ pos other_side)) × (other_from <ℤ (from +ℤ pos side)) }
{
    from < other_from + i64::from(other_side) && other_from < from + i64::from(side)
}
