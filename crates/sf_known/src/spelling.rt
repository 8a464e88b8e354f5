//! Plans as expressions, and expressions as plans.

ghost use Rattle.std.specs.Prelude.{◌≡◌, ◌*◌, IfOk, IfSome};
ghost use Rattle.sf_anneal.specs.Measured.{IsFloorplan};
ghost use Rattle.sf_model.specs.declared.design.Design.{Design as DesignValue};
ghost use Rattle.sf_model.specs.Legal.{Fits, IsLegal};
ghost use Rattle.sf_model.specs.Tree.{tree_of, width, height};
ghost use Rattle.sf_known.specs.Known.{HasKnownArea};
ghost use Rattle.sf_subsets.specs.Floors.{IsFitting};

use sf_model::{Design, Plan};
use sf_polish::{Expr, expr_of, normalise, plan_of};
use sf_wire::cost;
use std::alloc::{AllocError as NoMemory, Global};

/// The expression of a plan, made skewed, with its cost.
pub fn spelled(alloc: Global, design: &Design, plan: Plan) -> Result<(Expr, u64), NoMemory>
    requires legal { IsLegal design.now (tree_of plan) }
    requires fits { Fits design.now.outline (tree_of plan) }
    requires area { width (tree_of plan) * height (tree_of plan) ≡ design.now.area_floor }
    ensures { IfOk result (λ known. HasKnownArea design.now known.0 known.1) }
{
    let plan = normalise(alloc, plan)?;
    let cost = cost(alloc, design, &plan)?;
    let expr = expr_of(alloc, &plan, design.block_count())?;
    Ok((expr, cost))
}

/// The floorplan that walks found, if they found one.
pub fn plan_found(alloc: Global, walked: &Option<(Expr, u64)>) -> Result<Option<Plan>, NoMemory>
    requires { (design : DesignValue) × IfSome walked.now (λ p. IsFloorplan design p.0 p.1) }
    ensures { (design : DesignValue) → IfSome walked.now (λ p. IsFloorplan design p.0 p.1)
        → IfOk result (λ found. IfSome found (λ plan. IsFitting design (tree_of plan))) }
{
    match walked {
        Some((expr, _)) => Ok(Some(plan_of(alloc, expr)?)),
        None => Ok(None),
    }
}
