//! Lists of shapes of small blocks.

use sf_model::Shape;
use sf_soft_shapes::{ShapeFault, hard_shapes, soft_shapes};

/// A shape of these sides.
const fn shape(w: u32, h: u32) -> Shape {
    Shape { w, h }
}

/// Whether these shapes are listed; none are where there is no shape.
fn is_list(found: Result<Vec<Shape>, ShapeFault>, wanted: &[Shape]) -> bool {
    match found {
        Ok(shapes) => shapes.as_slice() == wanted,
        Err(ShapeFault::NoShape) => wanted.is_empty(),
        Err(ShapeFault::NoMemory) => false,
    }
}

/// Hard blocks are turned unless fixed, and soft ones take allowed widths.
#[test]
fn lists_shapes(rt: HostRuntime) {
    let alloc = rt.alloc();
    let turned = hard_shapes(alloc, 4, 3, false);
    assert!(rt; is_list(turned, &[shape(3, 4), shape(4, 3)]));
    let fixed = hard_shapes(alloc, 4, 3, true);
    assert!(rt; is_list(fixed, &[shape(4, 3)]));
    let soft = soft_shapes(alloc, 4, 500_000, 4_000_000, 16);
    assert!(rt; is_list(soft, &[shape(1, 4), shape(2, 2), shape(3, 2)]));
    let spread = soft_shapes(alloc, 100, 10_000, 100_000_000, 3);
    assert!(rt; is_list(spread, &[shape(1, 100), shape(50, 2), shape(100, 1)]));
    let none = soft_shapes(alloc, 5, 1_000_000, 1_000_000, 16);
    assert!(rt; is_list(none, &[]));
}
