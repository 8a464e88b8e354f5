//! What plans and placements cost.

ghost use Rattle.std.specs.Prelude.{◌≡◌, ◌+◌, ◌<◌, ◌≤◌, ◌^◌, IfOk, All};
ghost use Rattle.sf_model.specs.Tree.{tree_of};
ghost use Rattle.sf_model.specs.Legal.{IsLegal, Fits};
ghost use Rattle.sf_model.specs.Cost.{right_end, upper_end, cost, spots_cost};
ghost use Rattle.sf_place.specs.Spots.{HasNearCorner};
ghost use Rattle.sf_place.specs.Verdict.{AreLegal};

use crate::wires::wire;
use sf_model::{Design, Plan, Spot};
use std::alloc::{AllocError as NoMemory, Global};

/// The cost of a plan: its area, in squares of scaled whole units, and its wire, in doubled scaled whole
/// units, each times its weight.
pub fn cost(alloc: Global, design: &Design, plan: &Plan) -> Result<u64, NoMemory>
    requires legal { IsLegal design.now (tree_of plan.now) }
    requires fits { Fits design.now.outline (tree_of plan.now) }
    ensures cost { IfOk result (λ c. c ≡ cost design.now (tree_of plan.now)) }
    ensures bounded { IfOk result (λ c. c < 2 ^ 63 + 2 ^ 56) }
{
    let spots = sf_place::spots(alloc, plan, design.block_count())?;
    Ok(spots_cost(design, &spots))
}

/// The same of a placement.
pub fn spots_cost(design: &Design, spots: &[Spot]) -> u64
    requires { AreLegal design.now spots.now }
    ensures cost { result ≡ spots_cost design.now spots.now }
    ensures bounded { result < 2 ^ 63 + 2 ^ 56 }
{
    let (width, height) = spots_size(spots);
    let area = u64::from(design.weights.area) * (width * height);
    area + u64::from(design.weights.wire) * wire(design, spots)
}

/// How far the right ends of rectangles, and their upper ends, lie from (0, 0) at most, in scaled whole
/// units. Where no rectangle lies at a negative place this is the size of the placement.
#[tactic(auto, using(crate::proofs::Ends::right_end_more, crate::proofs::Ends::upper_end_more))]
pub fn spots_size(spots: &[Spot]) -> (u64, u64)
    requires { All HasNearCorner spots.now }
    ensures right { result.0 ≡ right_end spots.now }
    ensures upper { result.1 ≡ upper_end spots.now }
{
    let mut right = 0;
    let mut upper = 0;
    for spot in spots {
        right = (spot.x + i64::from(spot.w)).unsigned_abs().max(right);
        upper = (spot.y + i64::from(spot.h)).unsigned_abs().max(upper);
    }
    (right, upper)
}
