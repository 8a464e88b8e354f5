//! The least size in the table of a design.

ghost use Rattle.std.specs.Prelude.{◌≡◌, ◌-◌, ◌*◌, ◌^◌, ◌<◌, ◌≤◌, All, IfOk, MatchOption};
ghost use Rattle.sf_curves.specs.Points.{IsLeastArea, area_of};
ghost use Rattle.sf_model.specs.Legal.{IsAreaFloor, block_count};
ghost use Rattle.sf_subsets.specs.Gathering.{IsFoundBelow};
ghost use Rattle.sf_subsets.specs.declared.limits.TheConstants.{MOST_BLOCKS};

use crate::budget::{Budget, total_of};
use crate::leasts::leasts_of;
use crate::table::{Table, set_curves};
use sf_curves::{Curve, Point, area};
use sf_model::Design;
use std::alloc::{AllocError as NoMemory, Global};

/// A table, and the size of a floorplan of least area in it.
#[derive(Drop)]
pub struct Found {
    pub table: Table,
    pub size: Point,
}

/// The set of all blocks.
pub fn all_blocks(blocks: u16) -> usize
    requires { blocks ≤ MOST_BLOCKS }
    ensures { result ≡ 2 ^ blocks - 1 }
{
    (1 << blocks) - 1
}

/// Width times height of the outline.
#[tactic(auto, using(crate::proofs::Areas::sides_small))]
pub fn outline_area(design: &Design) -> u64
    ensures is { result ≡ design.now.outline.w * design.now.outline.h }
    ensures small { result ≤ 2 ^ 40 }
{
    u64::from(design.outline.w) * u64::from(design.outline.h)
}

/// The point of least area, if that is below the limit.
fn least_below(curve: &Curve, limit: u64) -> Option<Point>
    ensures { MatchOption result
        (All (λ p. limit ≤ area_of p) curve.now)
        (λ p. (area_of p < limit) × IsLeastArea curve.now p) }
{
    let point = curve.least_area()?;
    if area(point) < limit {
        Some(point)
    } else {
        None
    }
}

/// The size of a floorplan of least area that fits, in its table, if that area is below the limit.
pub fn find_below(alloc: Global, design: &Design, limit: u64) -> Result<Option<Found>, NoMemory>
    requires few { block_count design.now ≤ MOST_BLOCKS }
    ensures { IfOk result (λ found. MatchOption found
        (IsAreaFloor design.now limit) (IsFoundBelow design.now limit)) }
{
    let leasts = leasts_of(alloc, design)?;
    let all = all_blocks(design.block_count());
    let total = total_of(&leasts, all);
    let limit = limit.min(outline_area(design) + 1);
    if limit <= total {
        return Ok(None);
    }
    let dead = limit - 1 - total;
    let table = set_curves(alloc, design, &Budget { leasts, dead })?;
    match least_below(&table.curves[all], limit) {
        Some(size) => Ok(Some(Found { table, size })),
        None => Ok(None),
    }
}
