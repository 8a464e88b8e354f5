//! The undominated sizes among the shapes of a block.

ghost use Rattle.std.specs.Prelude.{◌↔◌, IsTrue, AllPairs, IfOk};
ghost use Rattle.std.specs.List.Sorted.{IsPermutation};
ghost use Rattle.sf_curves.specs.Points.{IsSlimmer, IsNoLater, IsCurveOf};

use crate::point::Point;
use sf_model::{Outline, Shape};
use std::alloc::{AllocError as NoMemory, Global};

/// Whether the first shape stands no later than the second: by width, then height.
fn is_no_later(first: Shape, second: Shape) -> bool
    ensures { IsTrue result ↔ IsNoLater first second }
{
    first.w < second.w || (first.w == second.w && first.h <= second.h)
}

/// Whether each shape stands no later than the next.
fn stand_in_order(shapes: &[Shape]) -> bool
    ensures { IsTrue result → AllPairs IsNoLater shapes.now }
{
    let mut last = Shape { w: 0, h: 0 };
    for shape in shapes {
        if !is_no_later(last, *shape) {
            return false;
        }
        last = *shape;
    }
    true
}

/// A copy of the shapes in order.
fn copy_in_order(alloc: Global, shapes: &[Shape]) -> Result<Vec<Shape>, NoMemory>
    ensures sorted { IfOk result (λ copy. AllPairs IsNoLater copy.items) }
    ensures same { IfOk result (λ copy. IsPermutation shapes.now copy.items) }
{
    let mut copy = Vec::from_slice(alloc, shapes)?;
    copy.sort_unstable_by_key(|shape| (shape.w, shape.h));
    Ok(copy)
}

/// The shapes of a sorted list that lie in the outline and are lower than those before them.
fn undominated_points(
    list: Vec<Point>,
    shapes: &[Shape],
    outline: Outline,
) -> Result<Vec<Point>, NoMemory>
    requires sorted { AllPairs IsNoLater shapes.now }
    ensures falls { IfOk result (λ v. AllPairs IsSlimmer v.items) }
    ensures of_shapes { IfOk result (λ v. IsCurveOf outline shapes.now v.items) }
{
    let mut points = list;
    points.clear();
    let mut ceiling = u64::from(outline.h) + 1;
    for shape in shapes {
        if shape.w <= outline.w && u64::from(shape.h) < ceiling {
            points.push(*shape)?;
            ceiling = u64::from(shape.h);
        }
    }
    Ok(points)
}

/// The same of a list in any order. One that stands in order is not copied.
pub fn points_of_shapes(
    list: Vec<Point>,
    shapes: &[Shape],
    outline: Outline,
) -> Result<Vec<Point>, NoMemory>
    ensures falls { IfOk result (λ v. AllPairs IsSlimmer v.items) }
    ensures of_shapes { IfOk result (λ v. IsCurveOf outline shapes.now v.items) }
{
    if stand_in_order(shapes) {
        return undominated_points(list, shapes, outline);
    }
    let copy = copy_in_order(*list.allocator(), shapes)?;
    undominated_points(list, &copy, outline)
}
