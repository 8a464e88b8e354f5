//! What the area costs at least.

ghost use Rattle.std.specs.Prelude.{◌≡◌, ◌*◌, max, IfOk};
ghost use Rattle.sf_node.specs.Children.{IsSubproblem};
ghost use Rattle.sf_frames.specs.Groups.{IsNeeded};
ghost use Rattle.sf_frames.specs.Kept.{IsStoredPath};
ghost use Rattle.sf_bounds.specs.Open.{IsAreaCostOrNone};

use sf_frames::{Anew, Frames, Measured, Sums};
use sf_model::Design;
use sf_node::Node;
use std::alloc::AllocError as NoMemory;

/// The area that groups need, by their sum, and by the widest and the highest one.
fn needed(sums: Sums) -> u64
    ensures { result ≡ max sums.area (sums.w * sums.h) }
{
    let box_area = u64::from(sums.w) * u64::from(sums.h);
    sums.area.max(box_area)
}

/// What this area costs, which the items and the unused blocks need, or the floor that the design knows where
/// that is more; none where they have no room.
fn cost_of(needed: u64, design: &Design, node: &Node) -> Option<u64>
    requires { IsNeeded design.now node.now needed }
    ensures { IsAreaCostOrNone design.now node.now result }
{
    let area = needed.max(design.area_floor);
    if area > u64::from(design.outline.w) * u64::from(design.outline.h) {
        return None;
    }
    Some(u64::from(design.weights.area) * area)
}

/// What the area costs at least that the items and the unused blocks need, or that the design knows to be
/// needed; none where one of them fits in no way, or they have no room. It is measured by the frames of the path where each span is whole and no
/// more points are needed than are kept, else from curves that are made anew.
pub fn area_cost(
    frames: &mut Frames,
    anew: &mut Anew,
    design: &Design,
    node: &Node,
) -> Result<Option<u64>, NoMemory>
    requires subproblem { IsSubproblem design.now node.now }
    requires serves { IsStoredPath design.now frames.old }
    ensures cost { IfOk result (IsAreaCostOrNone design.now node.now) }
    ensures serves { IsStoredPath design.now frames.new }
{
    if node.steps().len() == node.tokens().len() {
        let measured = frames.measure(design, node)?;
        match measured {
            Measured::Takes(sums) => return Ok(cost_of(needed(sums), design, node)),
            Measured::FitsInNoWay => return Ok(None),
            Measured::TooLarge => {}
        }
    }
    let Some(area) = anew.needed_area(design, node)? else {
        return Ok(None);
    };
    Ok(cost_of(area, design, node))
}
