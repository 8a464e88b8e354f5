//! The least and the greatest sides of blocks within their spans.

ghost use Rattle.std.specs.Prelude.{◌≡◌, ◌<◌, ◌≤◌, length, slice_range, OnOk};
ghost use Rattle.sf_node.specs.Children.{IsSubproblem};
ghost use Rattle.sf_standard.specs.Hull.{extent_of, extent_in};
ghost use Rattle.sf_bound.specs.Only.{Tells};
ghost use Rattle.sf_nets.specs.Layout.{single_extent, with_shape};

use sf_model::{Design, Shape};
use sf_node::Node;
use sf_standard::Extent;
use std::alloc::AllocError as NoMemory;

/// The least and the greatest sides of some shapes.
pub fn extent_of(shapes: &[Shape]) -> Extent
    ensures { result ≡ extent_of shapes.now }
{
    let Some((first, rest)) = shapes.split_first() else {
        return Extent {
            least_w: 0,
            most_w: 0,
            least_h: 0,
            most_h: 0,
        };
    };
    let mut extent = single(*first);
    for shape in rest {
        extent = with_shape(extent, *shape);
    }
    extent
}

/// The extent of one shape.
fn single(shape: Shape) -> Extent
    ensures { result ≡ single_extent shape }
{
    Extent {
        least_w: shape.w,
        most_w: shape.w,
        least_h: shape.h,
        most_h: shape.h,
    }
}

/// An extent with one shape more.
fn with_shape(extent: Extent, shape: Shape) -> Extent
    ensures { result ≡ with_shape extent shape }
{
    Extent {
        least_w: extent.least_w.min(shape.w),
        most_w: extent.most_w.max(shape.w),
        least_h: extent.least_h.min(shape.h),
        most_h: extent.most_h.max(shape.h),
    }
}

/// The extent of the shapes from one place up to another.
fn part_extent(shapes: &[Shape], from: u16, to: u16) -> Extent
    requires some { from < to }
    requires in_list { to ≤ length shapes.now }
    ensures { result ≡ extent_of (slice_range shapes.now from to) }
{
    extent_of(&shapes[usize::from(from)..usize::from(to)])
}

/// The extent of the shapes in a block's span.
#[tactic(auto, using(sf_bound::proofs::Spans::span_some, sf_bound::proofs::Spans::span_count))]
fn block_extent(design: &Design, node: &Node, block: u16) -> Extent
    requires subproblem { IsSubproblem design.now node.now }
    requires inside { block < length design.now.blocks }
    ensures { result ≡ extent_in design.now node.now block }
{
    let (from, to) = node.span(block);
    part_extent(design.shapes_of(block), from, to)
}

/// Fills the list with the extent of each block.
pub fn fill_extents(extents: &mut Vec<Extent>, design: &Design, node: &Node) -> Result<(), NoMemory>
    requires { IsSubproblem design.now node.now }
    ensures { OnOk result
        (Tells (extent_in design.now node.now) (length design.now.blocks) extents.new.items) }
{
    extents.clear();
    for block in 0..design.block_count() {
        extents.push(block_extent(design, node, block))?;
    }
    Ok(())
}
