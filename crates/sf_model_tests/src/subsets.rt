//! The least areas of designs of few blocks: published ones of squares, and some worked out by hand.

ghost use Rattle.std.specs.Prelude.{◌≡◌, ◌≤◌, IfOk};
ghost use Rattle.sf_model.specs.Legal.{block_count};
ghost use Rattle.sf_model.specs.Limits.{IsSide};

use sf_model::{Design, Outline, Shape};
use sf_subsets::{LeastPlan, learn_area, least_plan, least_plan_below, least_size_below};
use sf_test_designs::{bare, block};
use std::alloc::{AllocError, Global};

/// A square of each side from 1 to this one, in an outline that holds any row of them.
fn squares(alloc: Global, most: u32) -> Result<Design, AllocError>
    requires some { 1 ≤ most }
    requires few { most ≤ 18 }
    ensures { IfOk result (λ design. block_count design ≡ most) }
{
    let mut blocks = Vec::new(alloc);
    for side in 1..most + 1 {
        blocks.push(block(alloc, Shape { w: side, h: side })?)?;
    }
    let outline = Outline { w: 1_000, h: 1_000 };
    bare(alloc, blocks, outline, 0)
}

/// The published areas of the least rectangles that hold squares of sides 1 to n, which slicing floorplans
/// reach for these n.
const AREAS: [u64; 7] = [1, 6, 15, 35, 60, 99, 154];

/// The area of a floorplan that there may be.
fn area_of(found: Option<LeastPlan>) -> Option<u64> {
    match found {
        Some(least) => Some(least.area),
        None => None,
    }
}

/// The least area of these squares, that of a floorplan below an area, and of a size below it, where there are such.
fn areas_below(alloc: Global, most: u32, limit: u64) -> Result<[Option<u64>; 3], AllocError>
    requires some { 1 ≤ most }
    requires few { most ≤ 18 }
{
    let design = squares(alloc, most)?;
    let least = area_of(least_plan(alloc, &design, None)?);
    let below = area_of(least_plan_below(alloc, &design, limit)?);
    let of_size = match least_size_below(alloc, &design, limit)? {
        Some(size) => Some(u64::from(size.w) * u64::from(size.h)),
        None => None,
    };
    Ok([least, below, of_size])
}

#[test]
fn squares_take_published_areas(rt: HostRuntime) {
    for most in 1..8 {
        let area = AREAS[most - 1];
        let below = areas_below(rt.alloc(), most as u32, area);
        assert!(rt; below == Ok([Some(area), None, None]), "{most}");
        let found = areas_below(rt.alloc(), most as u32, area + 1);
        assert!(rt; found == Ok([Some(area), Some(area), Some(area)]), "{most}");
    }
}

/// A block of 4 by 1 and one of 1 by 1, neither of which may be turned, in an outline.
fn long_and_small(alloc: Global, w: u32, h: u32) -> Result<Design, AllocError>
    requires width { IsSide w }
    requires height { IsSide h }
    ensures { IfOk result (λ design. block_count design ≡ 2) }
{
    let long = block(alloc, Shape { w: 4, h: 1 })?;
    let small = block(alloc, Shape { w: 1, h: 1 })?;
    bare(alloc, vec![in alloc; long, small]?, Outline { w, h }, 0)
}

/// Their least area there: 5 by 1 side by side, and 4 by 2 one above the other.
fn least_in(alloc: Global, w: u32, h: u32) -> Result<Option<u64>, AllocError>
    requires width { IsSide w }
    requires height { IsSide h }
{
    let design = long_and_small(alloc, w, h)?;
    Ok(area_of(least_plan(alloc, &design, None)?))
}

#[test]
fn outlines_count(rt: HostRuntime) {
    let alloc = rt.alloc();
    // Side by side, and just so; just one above the other; each alone, and not even that.
    assert!(rt; least_in(alloc, 100, 100) == Ok(Some(5)) && least_in(alloc, 5, 1) == Ok(Some(5)));
    assert!(rt; least_in(alloc, 4, 2) == Ok(Some(8)));
    assert!(rt; least_in(alloc, 4, 1) == Ok(None) && least_in(alloc, 3, 9) == Ok(None));
}

/// What a design of these two blocks knows of its area in an outline, and whether a floorplan came with that.
fn learned_in(alloc: Global, w: u32, h: u32) -> Result<(u64, bool), AllocError>
    requires width { IsSide w }
    requires height { IsSide h }
{
    let mut design = long_and_small(alloc, w, h)?;
    let plan = learn_area(alloc, &mut design, None)?;
    Ok((design.area_floor, plan.is_some()))
}

/// Anywhere, one above the other, and where none fits.
#[test]
fn designs_learn_their_areas(rt: HostRuntime) {
    assert!(rt; learned_in(rt.alloc(), 100, 100) == Ok((5, true)));
    assert!(rt; learned_in(rt.alloc(), 4, 2) == Ok((8, true)));
    assert!(rt; learned_in(rt.alloc(), 4, 1) == Ok((5, false)));
}
