//! The sizes of two sets' rooms that are joined.

ghost use Rattle.std.specs.Prelude.{OnOk};
ghost use Rattle.sf_subsets.specs.Gathering.{AddsSmall, AddsJoins, AddsPair};

use sf_curves::{Curve, Direction, Point, area, combine};
use sf_model::Outline;
use std::alloc::AllocError as NoMemory;

/// Adds the sizes whose area is in the limit.
pub fn push_small(found: &mut Vec<Point>, sizes: &[Point], limit: u64) -> Result<(), NoMemory>
    ensures { OnOk result (AddsSmall limit found.old.items sizes.now found.new.items) }
{
    for size in sizes {
        if area(*size) <= limit {
            found.push(*size)?;
        }
    }
    Ok(())
}

/// Adds the sizes of a room of the first curve joined with one of the second, in one direction.
#[inline(always)]
fn gather_joins(
    found: &mut Vec<Point>,
    sizes: &mut Vec<Point>,
    first: &Curve,
    second: &Curve,
    direction: Direction,
    outline: Outline,
    limit: u64,
) -> Result<(), NoMemory>
    ensures { OnOk result
        (AddsJoins direction outline limit first.now second.now found.old.items found.new.items) }
{
    combine(sizes, first.points(), second.points(), direction, outline)?;
    push_small(found, sizes, limit)
}

/// The same in both directions.
pub fn gather_pair(
    found: &mut Vec<Point>,
    sizes: &mut Vec<Point>,
    first: &Curve,
    second: &Curve,
    outline: Outline,
    limit: u64,
) -> Result<(), NoMemory>
    ensures { OnOk result
        (AddsPair outline limit first.now second.now found.old.items found.new.items) }
{
    gather_joins(
        found,
        sizes,
        first,
        second,
        Direction::Beside,
        outline,
        limit,
    )?;
    gather_joins(
        found,
        sizes,
        first,
        second,
        Direction::Above,
        outline,
        limit,
    )
}
