//! The least area of all floorplans.

ghost use Rattle.std.specs.Prelude.{◌≡◌, ◌+◌, ◌*◌, ◌^◌, ◌<◌, ◌≤◌, IfOk, IfSome, MatchOption};
ghost use Rattle.sf_curves.specs.Points.{area_of};
ghost use Rattle.sf_model.specs.Cost.{NoneFits};
ghost use Rattle.sf_model.specs.Legal.{IsAreaFloor, block_count};
ghost use Rattle.sf_model.specs.Tree.{tree_of, width, height};
ghost use Rattle.sf_subsets.specs.Floors.{IsFitting, IsLeastPlan, IsLeastSize};
ghost use Rattle.sf_subsets.specs.declared.limits.TheConstants.{MOST_BLOCKS};

use crate::budget::total_of;
use crate::found::{all_blocks, find_below, outline_area};
use crate::leasts::leasts_of;
use crate::tracing::plan_of_size;
use sf_curves::{Point, area};
use sf_model::{Design, Plan};
use sf_place::size;
use std::alloc::{AllocError as NoMemory, Global};

/// A floorplan of least area, and that area in squares of scaled whole units.
#[derive(Drop)]
pub struct LeastPlan {
    pub plan: Plan,
    pub area: u64,
}

/// The size of a floorplan of least area that fits, if that area is below the limit. Otherwise the limit is a
/// floor of the areas of all floorplans that fit.
pub fn least_size_below(
    alloc: Global,
    design: &Design,
    limit: u64,
) -> Result<Option<Point>, NoMemory>
    requires few { block_count design.now ≤ MOST_BLOCKS }
    ensures { IfOk result (λ found. MatchOption found
        (IsAreaFloor design.now limit)
        (λ size. (area_of size < limit) × IsLeastSize design.now size)) }
{
    match find_below(alloc, design, limit)? {
        Some(found) => Ok(Some(found.size)),
        None => Ok(None),
    }
}

/// A floorplan of least area that fits, if that area is below the limit. Otherwise the limit is a floor of
/// the areas of all floorplans that fit.
pub fn least_plan_below(
    alloc: Global,
    design: &Design,
    limit: u64,
) -> Result<Option<LeastPlan>, NoMemory>
    requires few { block_count design.now ≤ MOST_BLOCKS }
    ensures { IfOk result (λ found. MatchOption found
        (IsAreaFloor design.now limit)
        (λ least. (least.area < limit) × IsLeastPlan design.now (tree_of least.plan) least.area)) }
{
    let Some(found) = find_below(alloc, design, limit)? else {
        return Ok(None);
    };
    let all = all_blocks(design.block_count());
    let plan = plan_of_size(alloc, &found.table.curves, all, found.size)?;
    let area = area(found.size);
    Ok(Some(LeastPlan { plan, area }))
}

/// The sum of the least areas of all blocks, where each has only its shapes that lie in the outline.
fn blocks_area(alloc: Global, design: &Design) -> Result<u64, NoMemory>
    requires { block_count design.now ≤ MOST_BLOCKS }
    ensures { IfOk result (λ n. n ≤ 2 ^ 46) }
{
    let leasts = leasts_of(alloc, design)?;
    Ok(total_of(&leasts, all_blocks(design.block_count())))
}

/// An area that no floorplan of least area passes: that of a known one, or one more than the outline's.
fn most_area(design: &Design, known: &Option<Plan>) -> u64
    requires { IfSome known.now (λ plan. IsFitting design.now (tree_of plan)) }
    ensures most { MatchOption known.now
        (result ≡ design.now.outline.w * design.now.outline.h + 1)
        (λ plan. width (tree_of plan) * height (tree_of plan) ≡ result) }
    ensures small { result ≤ 2 ^ 40 + 1 }
{
    match known {
        Some(plan) => {
            let (width, height) = size(plan);
            width * height
        }
        None => outline_area(design) + 1,
    }
}

/// How much the first table may waste: little, and where a floorplan is known three eighths of what that wastes,
/// which is mostly not much less than one of least area does.
fn first_waste(blocks: u64, most: u64, known: &Option<Plan>) -> u64
    requires small { most ≤ 2 ^ 40 + 1 }
    ensures { result ≤ blocks }
{
    match known {
        Some(_) => (most.saturating_sub(blocks) * 3 / 8).clamp(blocks / 256, blocks / 64),
        None => blocks / 256,
    }
}

/// A floorplan of least area, unless that is `most` or more than twice what the blocks take. A table costs the more
/// the more it may waste, so its limit begins a little above the area of the blocks and rises until a floorplan is
/// found.
fn least_rising(
    alloc: Global,
    design: &Design,
    blocks: u64,
    first: u64,
    most: u64,
) -> Result<Option<LeastPlan>, NoMemory>
    requires few { block_count design.now ≤ MOST_BLOCKS }
    requires blocks { blocks ≤ 2 ^ 46 }
    requires first { first ≤ blocks }
    requires most { most ≤ 2 ^ 40 + 1 }
    ensures { IfOk result (λ found. IfSome found
        (λ least. IsLeastPlan design.now (tree_of least.plan) least.area)) }
{
    let mut limit = blocks + first + 1;
    while limit < most && limit <= 2 * blocks {
        if let Some(least) = least_plan_below(alloc, design, limit)? {
            return Ok(Some(least));
        }
        limit += (limit - blocks) / 4 + 1;
    }
    Ok(None)
}

/// A floorplan of less area than this if there is one, and else the known one, which has just this area.
fn least_or_known(
    alloc: Global,
    design: &Design,
    most: u64,
    known: Option<Plan>,
) -> Result<Option<LeastPlan>, NoMemory>
    requires few { block_count design.now ≤ MOST_BLOCKS }
    requires known { IfSome known (λ plan. IsFitting design.now (tree_of plan)) }
    requires most { MatchOption known
        (most ≡ design.now.outline.w * design.now.outline.h + 1)
        (λ plan. width (tree_of plan) * height (tree_of plan) ≡ most) }
    ensures { IfOk result (λ found. MatchOption found
        (NoneFits design.now)
        (λ least. IsLeastPlan design.now (tree_of least.plan) least.area)) }
{
    if let Some(least) = least_plan_below(alloc, design, most)? {
        return Ok(Some(least));
    }
    match known {
        Some(plan) => Ok(Some(LeastPlan { plan, area: most })),
        None => Ok(None),
    }
}

/// A floorplan of least area that fits, or nothing where none fits. A known one limits what the last table may
/// waste, and is handed back where none has less area.
pub fn least_plan(
    alloc: Global,
    design: &Design,
    known: Option<Plan>,
) -> Result<Option<LeastPlan>, NoMemory>
    requires few { block_count design.now ≤ MOST_BLOCKS }
    requires known { IfSome known (λ plan. IsFitting design.now (tree_of plan)) }
    ensures { IfOk result (λ found. MatchOption found
        (NoneFits design.now)
        (λ least. IsLeastPlan design.now (tree_of least.plan) least.area)) }
{
    let most = most_area(design, &known);
    let blocks = blocks_area(alloc, design)?;
    let first = first_waste(blocks, most, &known);
    match least_rising(alloc, design, blocks, first, most)? {
        Some(least) => Ok(Some(least)),
        None => least_or_known(alloc, design, most, known),
    }
}
