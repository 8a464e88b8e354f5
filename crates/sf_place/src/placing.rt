//! Where the blocks of a plan stand.

ghost use Rattle.std.specs.Prelude.{◌≡◌, ℕ, ◌+◌, ◌*◌, ◌<◌, ◌≤◌, ◌^◌, length, Contains, IfOk};
ghost use Rattle.sf_model.specs.declared.design.Design.{Design as DesignValue};
ghost use Rattle.sf_model.specs.Tree.{tree_of, width, height, leaf_count, spots_at, spots_of, HasBlocksBelow, HasEachOnce};
ghost use Rattle.sf_model.specs.Legal.{IsLegal, Fits};
ghost use Rattle.sf_model.specs.Wire.{spot_of, wire};
ghost use Rattle.sf_model.specs.Cost.{cost, spots_cost};
ghost use Rattle.sf_place.specs.Spots.{IsByNumber, by_number, with_spots};
ghost use Rattle.sf_place.specs.Verdict.{AreLegal};

use sf_model::{Plan, Shape, Spot};
use std::alloc::{AllocError as NoMemory, Global};

const NOWHERE: Spot = Spot {
    block: 0,
    x: 0,
    y: 0,
    w: 0,
    h: 0,
};

/// The rectangles of a plan whose lower left corner stands at (0, 0), by block number, in scaled
/// whole units.
pub fn spots(alloc: Global, plan: &Plan, blocks: u16) -> Result<Vec<Spot>, NoMemory>
    requires { HasEachOnce blocks (tree_of plan.now) }
    ensures placed { IfOk result (λ v. v.items ≡ by_number blocks (spots_of (tree_of plan.now))) }
    ensures same_spots { (b : ℕ) → IfOk result (λ v. spot_of b v.items
        ≡ spot_of b (spots_of (tree_of plan.now))) }
    ensures same_wire { (design : DesignValue)
        → IfOk result (λ v. wire design v.items ≡ wire design (spots_of (tree_of plan.now))) }
    ensures same_cost { (design : DesignValue)
        → IfOk result (λ v. spots_cost design v.items ≡ cost design (tree_of plan.now)) }
    ensures legal { (design : DesignValue) → IsLegal design (tree_of plan.now)
        → Fits design.outline (tree_of plan.now) → IfOk result (λ v. AreLegal design v.items) }
{
    let mut spots = vec![in alloc; NOWHERE; usize::from(blocks)]?;
    place(plan, 0, 0, &mut spots);
    Ok(spots)
}

/// The spot of a block, in a list that has one for each block, by number.
pub fn spot_at(spots: &[Spot], block: usize) -> Spot
    requires by_number { IsByNumber spots.now }
    requires in_range { block < length spots.now }
    ensures spot { result ≡ spot_of block spots.now }
    ensures block { result.block ≡ block }
    ensures listed { Contains spots.now result }
{
    spots[block]
}

/// Writes each rectangle of a plan at its block's number, and says how large the plan is.
#[tactic(auto, using(crate::proofs::Writes::placed_append))]
fn place(plan: &Plan, x: u64, y: u64, spots: &mut [Spot]) -> (u64, u64)
    requires blocks { HasBlocksBelow (length spots.old) (tree_of plan.now) }
    requires right { x + 2 ^ 32 * leaf_count (tree_of plan.now) ≤ 2 ^ 63 }
    requires upper { y + 2 ^ 32 * leaf_count (tree_of plan.now) ≤ 2 ^ 63 }
    ensures width { result.0 ≡ width (tree_of plan.now) }
    ensures height { result.1 ≡ height (tree_of plan.now) }
    ensures narrow { result.0 ≤ 2 ^ 32 * leaf_count (tree_of plan.now) }
    ensures low { result.1 ≤ 2 ^ 32 * leaf_count (tree_of plan.now) }
    ensures placed { spots.new ≡ with_spots spots.old (spots_at x y (tree_of plan.now)) }
{
    match plan {
        Plan::Leaf(block, shape) => {
            let Shape { w, h } = *shape;
            spots[usize::from(*block)] = Spot {
                block: *block,
                x: x as i64,
                y: y as i64,
                w,
                h,
            };
            (u64::from(w), u64::from(h))
        }
        Plan::Beside(left, right) => {
            let (left_width, left_height) = place(left, x, y, spots);
            let (right_width, right_height) = place(right, x + left_width, y, spots);
            (left_width + right_width, left_height.max(right_height))
        }
        Plan::Above(lower, upper) => {
            let (lower_width, lower_height) = place(lower, x, y, spots);
            let (upper_width, upper_height) = place(upper, x, y + lower_height, spots);
            (lower_width.max(upper_width), lower_height + upper_height)
        }
    }
}
