//! A plan of a size that a table has.

ghost use Rattle.std.specs.Prelude.{◌≡◌, ◌^◌, ◌<◌, ℕ, length, Contains, IfOk};
ghost use Rattle.sf_model.specs.declared.design.Design.{Design};
ghost use Rattle.sf_model.specs.Tree.{tree_of};
ghost use Rattle.sf_curves.specs.Direction.{plan_in};
ghost use Rattle.sf_subsets.specs.Gathering.{AreMade, IsPlanOfSize, curve_at};

use crate::splitting::split_of;
use sf_curves::{Curve, Direction, Point};
use sf_model::Plan;
use std::alloc::{AllocError as NoMemory, Global};

/// The lowest block of a set, which is its only one where the set's number is a power of 2.
fn lowest_block(set: usize) -> u16
    ensures { (b : ℕ) → set ≡ 2 ^ b → result ≡ b }
{
    set.trailing_zeros() as u16
}

/// Two plans as one.
fn joined(alloc: Global, first: Plan, second: Plan, direction: Direction) -> Result<Plan, NoMemory>
    ensures { IfOk result
        (λ plan. tree_of plan ≡ plan_in direction (tree_of first) (tree_of second)) }
{
    let first = Box::new(alloc, first)?;
    let second = Box::new(alloc, second)?;
    match direction {
        Direction::Beside => Ok(Plan::Beside(first, second)),
        Direction::Above => Ok(Plan::Above(first, second)),
    }
}

/// A plan of just this size: of a split that leads to it, or of the set's only block.
pub fn plan_of_size(
    alloc: Global,
    curves: &[Curve],
    set: usize,
    size: Point,
) -> Result<Plan, NoMemory>
    requires some { 0 < set }
    requires inside { set < length curves.now }
    ensures { (design : Design) → AreMade design curves.now → Contains (curve_at curves.now set) size
        → IfOk result (λ plan. IsPlanOfSize design set size (tree_of plan)) }
{
    let Some(split) = split_of(curves, set, size) else {
        return Ok(Plan::Leaf(lowest_block(set), size));
    };
    let first = plan_of_size(alloc, curves, set - split.part, split.first)?;
    let second = plan_of_size(alloc, curves, split.part, split.second)?;
    joined(alloc, first, second, split.direction)
}
