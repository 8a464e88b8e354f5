//! What a table lets a design know of itself.

ghost use Rattle.std.specs.Prelude.{◌≡◌, ◌≤◌, IfOk, IfErr, IfSome, OnOk, MatchOption};
ghost use Rattle.sf_model.specs.Cost.{NoneFits};
ghost use Rattle.sf_model.specs.Legal.{block_count};
ghost use Rattle.sf_model.specs.Tree.{tree_of};
ghost use Rattle.sf_subsets.specs.Floors.{IsFitting, IsLeastPlan, KnowsArea};
ghost use Rattle.sf_subsets.specs.declared.limits.TheConstants.{MOST_BLOCKS};

use crate::found::outline_area;
use crate::least::least_plan;
use sf_model::{Design, Plan};
use std::alloc::{AllocError as NoMemory, Global};

/// Lets the design know its least area as the floor of its area, and hands over a floorplan that has it. Where
/// no floorplan fits the floor is one more than the area of the outline, so that the standard bound says so.
/// A floorplan that is already known limits what the table may waste, and is handed back where none has less area.
pub fn learn_area(
    alloc: Global,
    design: &mut Design,
    known: Option<Plan>,
) -> Result<Option<Plan>, NoMemory>
    requires few { block_count design.old ≤ MOST_BLOCKS }
    requires known { IfSome known (λ plan. IsFitting design.old (tree_of plan)) }
    ensures knows { OnOk result (KnowsArea design.old design.new) }
    ensures plan { IfOk result (λ plan. MatchOption plan
        (NoneFits design.new)
        (λ p. IsLeastPlan design.new (tree_of p) design.new.area_floor)) }
    ensures same { IfErr result (λ fault. design.new ≡ design.old) }
{
    match least_plan(alloc, design, known)? {
        Some(least) => {
            design.set_area_floor(least.area);
            Ok(Some(least.plan))
        }
        None => {
            let floor = outline_area(design) + 1;
            design.set_area_floor(floor);
            Ok(None)
        }
    }
}
