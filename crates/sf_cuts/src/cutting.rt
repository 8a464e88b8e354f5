//! The tree that cuts a placement.

ghost use Rattle.std.specs.Prelude.{◌≡◌, ◌≤◌, List, length, All, IfOk, IfSome, MatchOption, Ok, None};
ghost use Rattle.sf_model.specs.declared.plan.Spot.{Spot as SpotValue};
ghost use Rattle.sf_model.specs.Tree.{tree_of};
ghost use Rattle.sf_place.specs.Spots.{HasNearCorner, IsByNumber};
ghost use Rattle.sf_cuts.specs.Cuts.{IsCut, IsSlicing};
ghost use Rattle.sf_cuts.specs.Parting.{AreAmong, AreDistinct, IsCutOf, NoneCuts, joined, leaf_of};

use crate::axis::Axis;
use crate::parting::part;
use sf_model::{Plan, Shape, Spot};
use std::alloc::{AllocError as NoMemory, Global};

/// The slicing tree that cuts the spots of blocks, with each block in the size of its spot, if some tree
/// does. Spots that overlap are never cut apart; those that share no more than edges may be.
pub fn cut(alloc: Global, spots: &[Spot]) -> Result<Option<Plan>, NoMemory>
    requires some { 1 ≤ length spots.now }
    requires by_number { IsByNumber spots.now }
    requires near { All HasNearCorner spots.now }
    ensures cut { IfOk result (λ found. IfSome found (λ plan. IsCut spots.now (tree_of plan))) }
    ensures none { result ≡ Ok None → ¬ (IsSlicing spots.now) }
{
    cut_some(alloc, spots)
}

/// The tree that cuts some of the spots of a placement.
fn cut_some(alloc: Global, spots: &[Spot]) -> Result<Option<Plan>, NoMemory>
    requires some { 1 ≤ length spots.now }
    requires near { All HasNearCorner spots.now }
    requires distinct { AreDistinct spots.now }
    ensures { (placed : List SpotValue) → AreAmong placed spots.now
        → IfOk result (λ found. MatchOption found (NoneCuts placed spots.now)
        (λ plan. IsCutOf placed spots.now (tree_of plan))) }
{
    if spots.len() == 1 {
        return Ok(Some(leaf_of(spots[0])));
    }
    let Some(parts) = part(alloc, spots)? else {
        return Ok(None);
    };
    let Some(first) = cut_some(alloc, &parts.first)? else {
        return Ok(None);
    };
    let Some(second) = cut_some(alloc, &parts.second)? else {
        return Ok(None);
    };
    Ok(Some(join(alloc, parts.axis, first, second)?))
}

/// The block of a spot in its size.
fn leaf_of(spot: Spot) -> Plan
    ensures { tree_of result ≡ leaf_of spot }
{
    Plan::Leaf(
        spot.block,
        Shape {
            w: spot.w,
            h: spot.h,
        },
    )
}

/// Two plans joined along an axis.
fn join(alloc: Global, axis: Axis, first: Plan, second: Plan) -> Result<Plan, NoMemory>
    ensures { IfOk result (λ plan. tree_of plan ≡ joined axis (tree_of first) (tree_of second)) }
{
    let first = Box::new(alloc, first)?;
    let second = Box::new(alloc, second)?;
    match axis {
        Axis::Across => Ok(Plan::Beside(first, second)),
        Axis::Upward => Ok(Plan::Above(first, second)),
    }
}
