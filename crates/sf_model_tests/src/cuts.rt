//! Trees that cut placements, and shapes for placed blocks, worked out by hand.

ghost use Rattle.std.specs.Prelude.{◌≡◌, ◌≤◌, length, All, IfOk};
ghost use Rattle.sf_place.specs.Spots.{HasNearCorner, IsByNumber};

use sf_cuts::{CutFault, cut, packed};
use sf_expr_text::write_expr;
use sf_model::{Plan, Shape, Spot};
use sf_polish::expr_of;
use sf_test_designs::{FLAT, NARROW, WIDE, bare, block_of, spot, two_blocks};
use std::alloc::{AllocError, Global};

/// A left and a lower end, a width and a height.
type Place = (i32, i32, u16, u16);

/// Placements of blocks 0, 1 and so on, each with the tree that cuts it, or none.
const PLACEMENTS: [(&[Place], &str); 10] = [
    // one block
    (&[(7, -2, 2, 3)], "0:2x3"),
    // two far apart
    (&[(100, 7, 1, 1), (-5, -5, 2, 1)], "1:2x1 0:1x1 *"),
    // a row: the last cut is taken first
    (
        &[(0, 0, 1, 1), (1, 0, 1, 1), (2, 0, 1, 1)],
        "0:1x1 1:1x1 * 2:1x1 *",
    ),
    // two rows that touch
    (
        &[(0, 0, 2, 3), (2, 0, 3, 2), (0, 3, 3, 1)],
        "0:2x3 1:3x2 * 2:3x1 +",
    ),
    // a grid, across before upward
    (
        &[(0, 0, 1, 1), (1, 0, 1, 1), (0, 1, 1, 1), (1, 1, 1, 1)],
        "0:1x1 2:1x1 + 1:1x1 3:1x1 + *",
    ),
    // a block without a width, where another begins
    (&[(0, 0, 2, 2), (0, 0, 0, 2)], "1:0x2 0:2x2 *"),
    // a long block beside a short one, and one past the short one alone
    (
        &[(0, 0, 4, 1), (0, 1, 1, 1), (2, 1, 1, 1)],
        "0:4x1 1:1x1 2:1x1 * +",
    ),
    // two that overlap
    (&[(0, 0, 2, 2), (1, 1, 2, 2)], ""),
    // two in one place
    (&[(0, 0, 2, 2), (0, 0, 2, 2)], ""),
    // a pinwheel
    (
        &[
            (0, 0, 2, 1),
            (2, 0, 1, 2),
            (1, 2, 2, 1),
            (0, 1, 1, 2),
            (1, 1, 1, 1),
        ],
        "",
    ),
];

/// The spot of a block at this place.
fn spot_of(block: u16, place: Place) -> Spot
    ensures block { result.block ≡ block }
    ensures near { HasNearCorner result }
{
    let (x, y, w, h) = place;
    Spot {
        block,
        x: i64::from(x),
        y: i64::from(y),
        w: u32::from(w),
        h: u32::from(h),
    }
}

/// The spots of blocks 0, 1 and so on.
fn placed(alloc: Global, places: &[Place]) -> Result<Vec<Spot>, AllocError>
    requires { length places.now ≤ 9 }
    ensures one_each { IfOk result (λ spots. length spots.items ≡ length places.now) }
    ensures by_number { IfOk result (λ spots. IsByNumber spots.items) }
    ensures near { IfOk result (λ spots. All HasNearCorner spots.items) }
{
    let mut spots = Vec::new(alloc);
    for number in 0..places.len() {
        spots.push(spot_of(number as u16, places[number]))?;
    }
    Ok(spots)
}

/// The text of the tree that cuts some blocks, and none where no tree does.
fn cut_text(alloc: Global, places: &[Place]) -> Result<Vec<u8>, AllocError> {
    if places.is_empty() || places.len() > 9 {
        return Ok(Vec::new(alloc));
    }
    let spots = placed(alloc, places)?;
    match cut(alloc, &spots)? {
        Some(plan) => {
            let expr = expr_of(alloc, &plan, places.len() as u16)?;
            write_expr(alloc, &expr)
        }
        None => Ok(Vec::new(alloc)),
    }
}

/// Whether some blocks are cut so.
fn is_cut(alloc: Global, places: &[Place], wanted: &str) -> Result<bool, AllocError> {
    Ok(cut_text(alloc, places)?.as_slice() == wanted.as_bytes())
}

#[test]
fn cuts(rt: HostRuntime) {
    for (places, wanted) in PLACEMENTS {
        assert!(rt; is_cut(rt.alloc(), places, wanted) == Ok(true), "{wanted}");
    }
}

/// The other shape of the block.
const LONG: Shape = Shape { w: 4, h: 2 };

/// The shape that a block of shapes 2x3 and 4x2 takes where it is placed in this size.
fn shape_of(alloc: Global, soft: bool, size: Shape) -> Result<Shape, CutFault> {
    let block = block_of(alloc, vec![in alloc; NARROW, LONG]?)?;
    let design = bare(alloc, vec![in alloc; block]?, WIDE, 0)?;
    match packed(alloc, &design, &[soft], &[spot(0, -7, 7, size)])? {
        Plan::Leaf(_, shape) => Ok(shape),
        _ => Err(CutFault::NotSlicing),
    }
}

/// A listed size is taken. Another one is refused of a hard block, and of a soft one the nearest width counts.
#[test]
fn packs(rt: HostRuntime) {
    for (soft, size, wanted) in [
        (false, LONG, Ok(LONG)),
        (false, FLAT, Err(CutFault::Unlisted(0))),
        (true, NARROW, Ok(NARROW)),
        (true, FLAT, Ok(NARROW)),
        (true, Shape { w: 4, h: 9 }, Ok(LONG)),
        (true, Shape { w: 9, h: 3 }, Ok(LONG)),
        (true, Shape { w: 0, h: 3 }, Ok(NARROW)),
    ] {
        assert!(rt; shape_of(rt.alloc(), soft, size) == wanted);
    }
}

/// Whether two hard blocks, 2x3 and 3x2, are packed with this fault, where the second is 3x3 and begins at x.
fn has_fault(alloc: Global, x: u8, wanted: CutFault) -> Result<bool, AllocError> {
    let design = two_blocks(alloc, WIDE)?;
    let spots = [
        spot(0, 0, 0, NARROW),
        spot(1, i64::from(x), 0, Shape { w: 3, h: 3 }),
    ];
    Ok(matches!(packed(alloc, &design, &[false, false], &spots), Err(fault) if fault == wanted))
}

/// That no tree cuts the blocks is told before a size that isn't listed.
#[test]
fn overlaps_come_first(rt: HostRuntime) {
    assert!(rt; has_fault(rt.alloc(), 1, CutFault::NotSlicing) == Ok(true));
    assert!(rt; has_fault(rt.alloc(), 2, CutFault::Unlisted(1)) == Ok(true));
}
