//! The least sides of blocks within their spans.

ghost use Rattle.std.specs.Prelude.{◌≡◌, ◌<◌, ◌≤◌, length, slice_range, take};
ghost use Rattle.sf_model.specs.Legal.{block_count};
ghost use Rattle.sf_node.specs.Children.{IsSubproblem};
ghost use Rattle.sf_bound_kit.specs.Pairs.{least_sides, sides_in, first_sides};

use sf_model::{Design, Shape};
use sf_node::Node;

/// How many blocks are looked at, at most.
const MOST: usize = 16;

/// The least width and the least height of some shapes.
fn least_sides(shapes: &[Shape]) -> Shape
    ensures { result ≡ least_sides shapes.now }
{
    let Some((first, rest)) = shapes.split_first() else {
        return Shape { w: 0, h: 0 };
    };
    let mut least = *first;
    for shape in rest {
        least = Shape {
            w: least.w.min(shape.w),
            h: least.h.min(shape.h),
        };
    }
    least
}

/// Those of the shapes from one place up to another.
fn part_sides(shapes: &[Shape], from: u16, to: u16) -> Shape
    requires some { from < to }
    requires in_list { to ≤ length shapes.now }
    ensures { result ≡ least_sides (slice_range shapes.now from to) }
{
    least_sides(&shapes[usize::from(from)..usize::from(to)])
}

/// Those of the shapes in a block's span.
#[tactic(auto, using(sf_bound::proofs::Spans::span_some, sf_bound::proofs::Spans::span_count))]
fn sides_in(design: &Design, node: &Node, block: u16) -> Shape
    requires subproblem { IsSubproblem design.now node.now }
    requires inside { block < block_count design.now }
    ensures { result ≡ sides_in design.now node.now block }
{
    let (from, to) = node.span(block);
    part_sides(design.shapes_of(block), from, to)
}

/// Those of the first sixteen blocks, and how many these are.
pub fn first_sides(design: &Design, node: &Node) -> ([Shape; MOST], usize)
    requires { IsSubproblem design.now node.now }
    ensures sides { take result.1 result.0 ≡ first_sides design.now node.now }
    ensures few { result.1 ≤ 16 }
{
    let mut sides = [Shape { w: 0, h: 0 }; MOST];
    let count = usize::from(design.block_count()).min(MOST);
    for block in 0..count {
        sides[block] = sides_in(design, node, block as u16);
    }
    (sides, count)
}
