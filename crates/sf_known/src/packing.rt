//! What a search begins with where a placement is given.

ghost use Rattle.std.specs.Prelude.{◌≡◌, length, All, IfErr, IfOk, IfSome, MatchOption};
ghost use Rattle.sf_anneal.specs.Measured.{IsFloorplan};
ghost use Rattle.sf_cuts.specs.Packed.{IsRefused};
ghost use Rattle.sf_known.specs.Packed.{IsPackedBeginning, IsPriced};
ghost use Rattle.sf_model.specs.Legal.{block_count, Fits, IsLegal};
ghost use Rattle.sf_model.specs.Tree.{tree_of};
ghost use Rattle.sf_place.specs.Spots.{HasNearCorner, IsByNumber};
ghost use Rattle.sf_polish.specs.Postfix.{IsSkewed};

use sf_anneal::Beginning;
use sf_cuts::{CutFault, packed};
use sf_model::{Design, Plan, Spot};
use sf_place::fits;
use sf_polish::{Expr, expr_of};
use sf_wire::cost;
use std::alloc::{AllocError as NoMemory, Global};

/// The expression of a plan with its cost, where it fits the outline.
fn priced(alloc: Global, design: &Design, plan: &Plan) -> Result<Option<(Expr, u64)>, NoMemory>
    requires legal { IsLegal design.now (tree_of plan.now) }
    requires skewed { IsSkewed (tree_of plan.now) }
    ensures priced { IfOk result (λ found. MatchOption found
        (¬ (Fits design.now.outline (tree_of plan.now)))
        (λ p. IsPriced design.now (tree_of plan.now) p.0 p.1)) }
    ensures floorplan { IfOk result (λ found.
        IfSome found (λ p. IsFloorplan design.now p.0 p.1)) }
{
    if !fits(design.outline, plan) {
        return Ok(None);
    }
    let cost = cost(alloc, design, plan)?;
    let expr = expr_of(alloc, plan, design.block_count())?;
    Ok(Some((expr, cost)))
}

/// What a search begins with where the blocks of its design are placed in these spots: the plan to which they
/// are packed, by its tokens, and with its cost where it fits the outline. The plan stands to the lower left,
/// so that blocks may move.
pub fn packed_beginning(
    alloc: Global,
    design: &Design,
    soft: &[bool],
    spots: &[Spot],
) -> Result<Beginning, CutFault>
    requires one_each { length spots.now ≡ block_count design.now }
    requires soft { length soft.now ≡ block_count design.now }
    requires by_number { IsByNumber spots.now }
    requires near { All HasNearCorner spots.now }
    ensures begins { IfOk result (IsPackedBeginning design.now soft.now spots.now) }
    ensures floorplan { IfOk result (λ begin.
        IfSome begin.plan (λ p. IsFloorplan design.now p.0 p.1)) }
    ensures refused { IfErr result (IsRefused design.now soft.now spots.now) }
{
    let packed = packed(alloc, design, soft, spots)?;
    let plan = priced(alloc, design, &packed)?;
    let expr = expr_of(alloc, &packed, design.block_count())?;
    Ok(Beginning {
        tokens: expr.tokens,
        plan,
    })
}
