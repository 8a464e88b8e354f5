//! Spots parted in two by a cut.

ghost use Rattle.std.specs.Prelude.{◌≡◌, ℕ, ◌≤◌, ◌++◌, length, take, drop, All, AllPairs, IfOk, MatchOption, IsPermutation};
ghost use Rattle.sf_place.specs.Spots.{HasNearCorner};
ghost use Rattle.sf_cuts.specs.declared.axis.Axis.TheVariants.{Across, Upward};
ghost use Rattle.sf_cuts.specs.Parting.{ArePartsOf, CanBeCut, IsCutPlace, IsLastPlace, IsNoLater};

use crate::axis::{Axis, begin_on, end_on, side_on};
use sf_model::Spot;
use std::alloc::{AllocError as NoMemory, Global};

/// Spots in two parts, of which the first ends along the axis where the second begins, or before.
#[derive(Drop)]
pub struct Parts {
    pub axis: Axis,
    pub first: Vec<Spot>,
    pub second: Vec<Spot>,
}

/// A copy of the spots in order of where they begin along an axis, and of their sides where they begin at one
/// place: so what has no side stands before what begins with it.
fn in_order(alloc: Global, axis: Axis, spots: &[Spot]) -> Result<Vec<Spot>, NoMemory>
    ensures ordered { IfOk result (λ copy. AllPairs (IsNoLater axis) copy.items) }
    ensures same { IfOk result (λ copy. IsPermutation spots.now copy.items) }
{
    let mut copy = Vec::from_slice(alloc, spots)?;
    copy.sort_unstable_by_key(|spot| (begin_on(axis, *spot), side_on(axis, *spot)));
    Ok(copy)
}

/// The last place at which the spots are cut, by how far those before it reach.
fn last_place(axis: Axis, spots: &[Spot]) -> Option<usize>
    requires some { 1 ≤ length spots.now }
    requires near { All HasNearCorner spots.now }
    ensures { MatchOption result ((k : ℕ) → ¬ (IsCutPlace axis spots.now k))
        (IsLastPlace axis spots.now (length spots.now)) }
{
    let mut last = None;
    let mut reach = end_on(axis, spots[0]);
    for place in 1..spots.len() {
        if reach <= begin_on(axis, spots[place]) {
            last = Some(place);
        }
        reach = reach.max(end_on(axis, spots[place]));
    }
    last
}

/// The parts of spots by the last cut along an axis.
fn part_along(alloc: Global, axis: Axis, spots: &[Spot]) -> Result<Option<Parts>, NoMemory>
    requires some { 1 ≤ length spots.now }
    requires near { All HasNearCorner spots.now }
    ensures { IfOk result
        (λ found. MatchOption found (¬ (CanBeCut axis spots.now)) (ArePartsOf spots.now)) }
{
    let ordered = in_order(alloc, axis, spots)?;
    match last_place(axis, &ordered) {
        None => Ok(None),
        Some(place) => Ok(Some(Parts {
            axis,
            first: Vec::from_slice(alloc, &ordered[..place])?,
            second: Vec::from_slice(alloc, &ordered[place..])?,
        })),
    }
}

/// The parts of spots by the last cut across, or else by the last one upward.
pub fn part(alloc: Global, spots: &[Spot]) -> Result<Option<Parts>, NoMemory>
    requires some { 1 ≤ length spots.now }
    requires near { All HasNearCorner spots.now }
    ensures { IfOk result
        (λ found. MatchOption found (¬ (CanBeCut Across spots.now) × ¬ (CanBeCut Upward spots.now))
        (ArePartsOf spots.now)) }
{
    match part_along(alloc, Axis::Across, spots)? {
        Some(parts) => Ok(Some(parts)),
        None => part_along(alloc, Axis::Upward, spots),
    }
}
