//! The plan of a design that a placement becomes.

ghost use Rattle.std.specs.Prelude.{◌≡◌, ◌<◌, ℕ, length, All, Bool, true, IfErr, IfOk, MatchOption};
ghost use Rattle.sf_model.specs.Legal.{block_count};
ghost use Rattle.sf_model.specs.Limits.{IsShapeList};
ghost use Rattle.sf_model.specs.Tree.{tree_of, HasBlocksBelow};
ghost use Rattle.sf_place.specs.Spots.{HasNearCorner, IsByNumber};
ghost use Rattle.sf_cuts.specs.Packed.{IsNearest, IsPacked, IsRefused};
ghost use Rattle.sf_cuts.specs.Shaping.{IsChoice, AreShapesFor, HasUnlisted, shaped};

use crate::cutting::cut;
use crate::fault::CutFault;
use sf_model::{Design, Plan, Shape, Spot};
use sf_place::{is_listed, spot_at};
use std::alloc::Global;

/// The skewed floorplan of a design whose tree cuts the spots of its blocks. A block stands in the size of its
/// spot where that is listed. Else a soft block takes the listed shape of nearest width, the narrower of two
/// as near, and a hard one is refused. Whether the plan fits the outline isn't looked at.
pub fn packed(
    alloc: Global,
    design: &Design,
    soft: &[bool],
    spots: &[Spot],
) -> Result<Plan, CutFault>
    requires one_each { length spots.now ≡ block_count design.now }
    requires soft { length soft.now ≡ block_count design.now }
    requires by_number { IsByNumber spots.now }
    requires near { All HasNearCorner spots.now }
    ensures packed { IfOk result (λ plan. IsPacked design.now soft.now spots.now (tree_of plan)) }
    ensures refused { IfErr result (IsRefused design.now soft.now spots.now) }
{
    let Some(mut plan) = cut(alloc, spots)? else {
        return Err(CutFault::NotSlicing);
    };
    let shapes = shapes_for(alloc, design, soft, spots)?;
    reshape(&mut plan, &shapes);
    Ok(plan)
}

/// The shape of each block for its spot.
fn shapes_for(
    alloc: Global,
    design: &Design,
    soft: &[bool],
    spots: &[Spot],
) -> Result<Vec<Shape>, CutFault>
    requires one_each { length spots.now ≡ block_count design.now }
    requires soft { length soft.now ≡ block_count design.now }
    requires by_number { IsByNumber spots.now }
    ensures shapes { IfOk result (λ v. AreShapesFor design.now soft.now spots.now v.items) }
    ensures unlisted { IfErr result (HasUnlisted design.now soft.now spots.now) }
{
    let mut shapes = Vec::with_capacity(alloc, spots.len())?;
    for block in 0..spots.len() {
        match shape_for(design, soft[block], spot_at(spots, block)) {
            Some(shape) => shapes.push(shape)?,
            None => return Err(CutFault::Unlisted(block as u16)),
        }
    }
    Ok(shapes)
}

/// The shape of a block for its spot, if it has one.
fn shape_for(design: &Design, soft: bool, spot: Spot) -> Option<Shape>
    requires { spot.block < block_count design.now }
    ensures { IsChoice design.now soft spot result }
{
    let size = Shape {
        w: spot.w,
        h: spot.h,
    };
    if is_listed(design, spot.block, size) {
        return Some(size);
    }
    if soft {
        Some(nearest(design.shapes_of(spot.block), spot.w))
    } else {
        None
    }
}

/// The shape of nearest width, and the first of those as near.
fn nearest(shapes: &[Shape], w: u32) -> Shape
    requires { IsShapeList shapes.now }
    ensures { IsNearest shapes.now w result }
{
    let mut nearest = shapes[0];
    for shape in shapes {
        if shape.w.abs_diff(w) < nearest.w.abs_diff(w) {
            nearest = *shape;
        }
    }
    nearest
}

/// Gives each leaf of a plan the shape of its block.
fn reshape(plan: &mut Plan, shapes: &[Shape])
    requires { HasBlocksBelow (length shapes.now) (tree_of plan.old) }
    ensures { tree_of plan.new ≡ shaped shapes.now (tree_of plan.old) }
{
    match plan {
        Plan::Leaf(block, shape) => *shape = shapes[usize::from(*block)],
        Plan::Beside(left, right) => {
            reshape(left, shapes);
            reshape(right, shapes);
        }
        Plan::Above(lower, upper) => {
            reshape(lower, shapes);
            reshape(upper, shapes);
        }
    }
}
