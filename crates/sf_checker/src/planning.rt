//! What the plan of a certificate costs.

ghost use Rattle.std.specs.Prelude.{◌↔◌, ◌<◌, IfOk, IsTrue, MatchOption};
ghost use Rattle.sf_model.specs.Legal.{block_count};
ghost use Rattle.sf_model.specs.Tree.{tree_of, HasBlocksBelow};
ghost use Rattle.sf_polish.specs.Writable.{IsWritable};
ghost use Rattle.sf_certificate.specs.Valid.{HasCost};
ghost use Rattle.sf_checker.specs.Answers.{IsUnfit};
ghost use Rattle.sf_checker.specs.Listed.{HasListedShapes};

use sf_model::{Design, Plan};
use sf_place::{fits, is_listed};
use sf_polish::{Expr, plan_of};
use sf_wire::cost;
use std::alloc::{AllocError as NoMemory, Global};

/// The cost of the plan, or none where it has an unlisted shape or does not fit.
pub fn plan_cost(alloc: Global, design: &Design, expr: &Expr) -> Result<Option<u64>, NoMemory>
    requires { IsWritable (block_count design.now) expr.now }
    ensures { IfOk result (λ r. MatchOption r (IsUnfit design.now expr.now) (HasCost design.now expr.now)) }
{
    let plan = plan_of(alloc, expr)?;
    if !has_listed_shapes(design, &plan) {
        return Ok(None);
    }
    if !fits(design.outline, &plan) {
        return Ok(None);
    }
    Ok(Some(cost(alloc, design, &plan)?))
}

/// Whether each block of the plan has a shape of its list.
fn has_listed_shapes(design: &Design, plan: &Plan) -> bool
    requires { HasBlocksBelow (block_count design.now) (tree_of plan.now) }
    ensures { IsTrue result ↔ HasListedShapes design.now (tree_of plan.now) }
{
    match plan {
        Plan::Leaf(block, shape) => is_listed(design, *block, *shape),
        Plan::Beside(left, right) => {
            has_listed_shapes(design, left) && has_listed_shapes(design, right)
        }
        Plan::Above(lower, upper) => {
            has_listed_shapes(design, lower) && has_listed_shapes(design, upper)
        }
    }
}
