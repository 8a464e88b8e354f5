//! Placements of small designs, worked out by hand.

ghost use Rattle.std.specs.Prelude.{◌≤◌};
ghost use Rattle.sf_model.specs.Tree.{HasSides, leaf_count, tree_of, HasEachOnce};

use sf_model::{Outline, Plan, Shape, Spot};
use sf_place::{Verdict, check_spots, size, spots};
use sf_test_designs::{FLAT, NARROW, spot, two_blocks};
use std::alloc::{AllocError, Global};

/// Whether a plan of two blocks has these sides, and its blocks these spots.
fn is_placed(
    alloc: Global,
    plan: &Plan,
    sides: (u64, u64),
    placed: &[Spot],
) -> Result<bool, AllocError>
    requires few { leaf_count (tree_of plan.now) ≤ 320 }
    requires sides { HasSides (tree_of plan.now) }
    requires once { HasEachOnce 2 (tree_of plan.now) }
{
    Ok(size(plan) == sides && spots(alloc, plan, 2)?.as_slice() == placed)
}

/// Whether two blocks side by side are placed so.
fn is_beside(alloc: Global) -> Result<bool, AllocError> {
    let left = Box::new(alloc, Plan::Leaf(0, NARROW))?;
    let right = Box::new(alloc, Plan::Leaf(1, FLAT))?;
    let placed = [spot(0, 0, 0, NARROW), spot(1, 2, 0, FLAT)];
    is_placed(alloc, &Plan::Beside(left, right), (5, 3), &placed)
}

/// Whether one block above the other is placed so.
fn is_above(alloc: Global) -> Result<bool, AllocError> {
    let lower = Box::new(alloc, Plan::Leaf(1, NARROW))?;
    let upper = Box::new(alloc, Plan::Leaf(0, FLAT))?;
    let placed = [spot(0, 0, 3, FLAT), spot(1, 0, 0, NARROW)];
    is_placed(alloc, &Plan::Above(lower, upper), (3, 5), &placed)
}

/// Two blocks side by side, and one above the other.
#[test]
fn places(rt: HostRuntime) {
    assert!(rt; is_beside(rt.alloc()) == Ok(true));
    assert!(rt; is_above(rt.alloc()) == Ok(true));
}

/// Whether the second block, moved and with another height, is judged so.
fn are_judged(alloc: Global) -> Result<bool, AllocError> {
    let design = two_blocks(alloc, Outline { w: 5, h: 3 })?;
    let first = spot(0, 0, 0, NARROW);
    for (x, h, verdict) in [
        (2, 2, Verdict::Legal),
        (1, 2, Verdict::Overlap(0, 1)),
        (-1, 2, Verdict::Outside(1)),
        (3, 2, Verdict::Outside(1)),
        (2, 3, Verdict::Unlisted(1)),
    ] {
        let moved = spot(1, x, 0, Shape { w: 3, h });
        if check_spots(&design, &[first, moved]) != verdict {
            return Ok(false);
        }
    }
    Ok(true)
}

#[test]
fn judges(rt: HostRuntime) {
    assert!(rt; are_judged(rt.alloc()) == Ok(true));
}
