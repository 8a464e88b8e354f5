//! What a search hands over.

ghost use Rattle.std.specs.Prelude.{◌≡◌, IfOk};

use sf_certificate::Cert;
use sf_model::Shapes;
use sf_polish::{Expr, Tokens};
use std::alloc::{AllocError as NoMemory, Global};

/// The best plan found, its cost, a bound that no plan undercuts, the count of decided subproblems, and the
/// certificate that shows all of it.
#[derive(Drop)]
pub struct Found {
    pub plan: Option<Expr>,
    pub cost: u64,
    pub bound: u64,
    pub decided: u64,
    pub cert: Cert,
}

/// The plan once more.
pub fn copy_plan(alloc: Global, plan: &Option<Expr>) -> Result<Option<Expr>, NoMemory>
    ensures { IfOk result (λ copy. copy ≡ plan.now) }
{
    match plan {
        None => Ok(None),
        Some(expr) => {
            let tokens = Vec::from_slice(alloc, expr.tokens.as_slice())?;
            let shapes = Vec::from_slice(alloc, expr.shapes.as_slice())?;
            Ok(Some(Expr {
                tokens: Tokens::from_vec(tokens),
                shapes: Shapes::from_vec(shapes),
            }))
        }
    }
}
