//! The curves of the blocks in their whole spans, with which the list of points begins.

ghost use Rattle.std.specs.Prelude.{◌≡◌, ◌≤◌, ◌++◌, length, IfOk, OnErr, OnOk};
ghost use Rattle.sf_model.specs.Legal.{block_count};
ghost use Rattle.sf_frames.specs.declared.limits.TheConstants.{MOST_POINTS};
ghost use Rattle.sf_frames.specs.Kept.{AreWhole, IsStoredPath, at_end};

use crate::frame::Kept;
use crate::least::{Least, least_of};
use crate::stored::Stored;
use sf_curves::{Curve, Point};
use sf_model::Design;
use std::alloc::{AllocError as NoMemory, Global};

/// Puts the points of a curve at the end.
pub fn append(
    points: &mut Vec<Point>,
    made: &[Point],
    least: Option<Least>,
) -> Result<Kept, NoMemory>
    ensures points { IfOk result (λ _. points.new.items ≡ points.old.items ++ made.now) }
    ensures kept { IfOk result (λ k. k ≡ at_end points.old.items made.now least) }
    ensures same { OnErr result (points.new.items ≡ points.old.items) }
{
    let from = points.len();
    points.extend_from_slice(made)?;
    let to = points.len();
    Ok(Kept { from, to, least })
}

/// The whole curves of all blocks, and the points in which they lie.
fn wholes(alloc: Global, design: &Design) -> Result<(Vec<Point>, Vec<Kept>), NoMemory>
    ensures whole { IfOk result (λ r. AreWhole design.now r.0.items r.1.items (length r.0.items)) }
    ensures all { IfOk result (λ r. length r.1.items ≡ block_count design.now) }
    ensures few { IfOk result (λ r. length r.0.items ≤ MOST_POINTS) }
{
    let mut points = Vec::new(alloc);
    let mut blocks = Vec::new(alloc);
    for block in design.blocks.as_slice() {
        let shapes = block.shapes.as_slice();
        let curve = Curve::of_shapes(alloc, shapes, 0, shapes.len() as u16, design.outline)?;
        let least = least_of(curve.points());
        let kept = append(&mut points, curve.points(), least)?;
        blocks.push(kept)?;
    }
    Ok((points, blocks))
}

/// Makes the whole curves of all blocks, where they are not there yet.
pub fn fill(stored: &mut Stored, alloc: Global, design: &Design) -> Result<(), NoMemory>
    requires stored { IsStoredPath design.now stored.old }
    requires few { length stored.old.points.items ≤ MOST_POINTS }
    ensures stored { IsStoredPath design.now stored.new }
    ensures all { OnOk result (length stored.new.blocks.items ≡ block_count design.now) }
    ensures again { length stored.old.blocks.items ≡ block_count design.now
        → OnOk result (stored.new.frames.items ≡ stored.old.frames.items) }
    ensures few { length stored.new.points.items ≤ MOST_POINTS }
    ensures fewer { length stored.new.frames.items ≤ length stored.old.frames.items }
{
    if stored.blocks.len() >= design.blocks.as_slice().len() {
        return Ok(());
    }
    let (made, kept) = wholes(alloc, design)?;
    stored.frames.clear();
    stored.whole = made.len();
    stored.points = made;
    stored.blocks = kept;
    Ok(())
}
