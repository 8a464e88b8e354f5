//! Curves of small designs, worked out by hand.

ghost use Rattle.std.specs.Prelude.{IfOk};
ghost use Rattle.sf_curves.specs.Choices.{AreSpans};

use sf_curves::{Curve, Point, root_curve, trace};
use sf_model::{Design, Outline, Shape};
use sf_polish::{Token, is_normal};
use sf_test_designs::{FLAT, NARROW, SQUARE, WIDE, bare, block_of, three_shapes};
use std::alloc::{AllocError, Global};

/// Two hard blocks of 2 by 3, which may be turned.
fn two_turned(alloc: Global) -> Result<Design, AllocError> {
    let first = block_of(alloc, vec![in alloc; NARROW, FLAT]?)?;
    let second = block_of(alloc, vec![in alloc; NARROW, FLAT]?)?;
    bare(alloc, vec![in alloc; first, second]?, WIDE, 0)
}

/// The span of each block that has all of its shapes.
fn whole_spans(alloc: Global, design: &Design) -> Result<Vec<(u16, u16)>, AllocError>
    ensures { IfOk result (λ spans. AreSpans design.now spans.items) }
{
    let mut spans = Vec::new(alloc);
    for block in design.blocks.as_slice() {
        spans.push((0, block.shapes.as_slice().len() as u16))?;
    }
    Ok(spans)
}

/// Whether an expression whose blocks may take any of their shapes has the curve of these points, of which the first
/// one is that of least area, and the narrowest plan that is no higher than this has these shapes.
fn is_curve(
    alloc: Global,
    design: &Design,
    tokens: &[Token],
    points: &[Point],
    height: u32,
    shapes: &[Shape],
) -> Result<bool, AllocError> {
    let spans = whole_spans(alloc, design)?;
    if !is_normal(tokens, design.blocks.as_slice().len() as u16) {
        return Ok(false);
    }
    let curve = root_curve(alloc, design, tokens, &spans)?;
    let Some(point) = curve.narrowest(height) else {
        return Ok(false);
    };
    let expr = trace(alloc, design, tokens, &spans, point)?;
    Ok(
        curve.points() == points
            && curve.least_area() == points.first().copied()
            && expr.shapes.as_slice() == shapes,
    )
}

/// The same of two blocks that are joined by this operator.
fn is_joined(
    alloc: Global,
    operator: Token,
    points: &[Point],
    height: u32,
    shape: Shape,
) -> Result<bool, AllocError> {
    let design = two_turned(alloc)?;
    let tokens = [Token::Block(0), Token::Block(1), operator];
    is_curve(alloc, &design, &tokens, points, height, &[shape, shape])
}

/// The operator of two blocks, the points of their curve, the height of a room, and the shape of either block
/// in the narrowest plan that is no higher.
const JOINED: [(Token, [Point; 2], u32, Shape); 2] = [
    (
        Token::Beside,
        [Point { w: 4, h: 3 }, Point { w: 6, h: 2 }],
        3,
        NARROW,
    ),
    (
        Token::Above,
        [Point { w: 2, h: 6 }, Point { w: 3, h: 4 }],
        4,
        FLAT,
    ),
];

/// Both points of either curve have the area 12, so the first is the one of least area.
#[test]
fn two_blocks_are_joined(rt: HostRuntime) {
    for (operator, points, height, shape) in JOINED {
        assert!(rt;
            is_joined(rt.alloc(), operator, &points, height, shape) == Ok(true),
            "{height}"
        );
    }
}

/// The same of one block of three shapes, of which the narrowest that is no higher than 2 is a square.
fn is_one(alloc: Global) -> Result<bool, AllocError> {
    let design = three_shapes(alloc)?;
    let points = [Point { w: 1, h: 4 }, Point { w: 2, h: 2 }];
    is_curve(alloc, &design, &[Token::Block(0)], &points, 2, &[SQUARE])
}

#[test]
fn one_block(rt: HostRuntime) {
    assert!(rt; is_one(rt.alloc()) == Ok(true));
}

/// Shapes in no order. Of those with a width of 4 one is higher than the other, 5 by 5 is larger than 4 by
/// 5, 2 by 7 comes twice, and 1 by 12 is higher than the outline.
const SHAPES: [Shape; 7] = [
    Shape { w: 6, h: 2 },
    Shape { w: 4, h: 6 },
    Shape { w: 1, h: 12 },
    Shape { w: 5, h: 5 },
    Shape { w: 2, h: 7 },
    Shape { w: 4, h: 5 },
    Shape { w: 2, h: 7 },
];

/// Whether all of them have these points in an outline of 10 by 10.
fn all_have(alloc: Global, points: &[Point]) -> Result<bool, AllocError> {
    let outline = Outline { w: 10, h: 10 };
    let curve = Curve::of_shapes(alloc, SHAPES.as_slice(), 0, 7, outline)?;
    Ok(curve.points() == points)
}

/// Whether the second to the fourth have these points.
fn some_have(alloc: Global, points: &[Point]) -> Result<bool, AllocError> {
    let curve = Curve::of_shapes(alloc, SHAPES.as_slice(), 1, 4, WIDE)?;
    Ok(curve.points() == points)
}

#[test]
fn shapes_in_no_order(rt: HostRuntime) {
    let points = [
        Point { w: 2, h: 7 },
        Point { w: 4, h: 5 },
        Point { w: 6, h: 2 },
    ];
    assert!(rt; all_have(rt.alloc(), &points) == Ok(true));
    let points = [
        Point { w: 1, h: 12 },
        Point { w: 4, h: 6 },
        Point { w: 5, h: 5 },
    ];
    assert!(rt; some_have(rt.alloc(), &points) == Ok(true));
}

/// Whether 1 by 4 or 4 by 1 above 2 by 3 or 3 by 2 has these points in this outline.
fn above_has(alloc: Global, outline: Outline, points: &[Point]) -> Result<bool, AllocError> {
    let lower = Curve::of_shapes(alloc, &[NARROW, FLAT], 0, 2, WIDE)?;
    let shapes = [Shape { w: 1, h: 4 }, Shape { w: 4, h: 1 }];
    let upper = Curve::of_shapes(alloc, &shapes, 0, 2, WIDE)?;
    Ok(lower.above(alloc, &upper, outline)?.points() == points)
}

#[test]
fn two_above(rt: HostRuntime) {
    let points = [
        Point { w: 2, h: 7 },
        Point { w: 3, h: 6 },
        Point { w: 4, h: 3 },
    ];
    assert!(rt; above_has(rt.alloc(), WIDE, &points) == Ok(true));
    assert!(rt; above_has(rt.alloc(), Outline { w: 100, h: 6 }, &points[1..]) == Ok(true));
}
