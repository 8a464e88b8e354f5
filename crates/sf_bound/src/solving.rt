//! The cheapest plan of a solved subproblem.

ghost use Rattle.std.specs.Prelude.{◌≡◌, IfOk, IfSome, IsTrue};
ghost use Rattle.sf_node.specs.Subproblem.{is_complete, is_solved};
ghost use Rattle.sf_node.specs.Children.{IsSubproblem};
ghost use Rattle.sf_bound.specs.Cheapest.{IsSolution, IsLeastTrace};

use crate::only_plan::only_plan;
use sf_curves::{area, root_curve, trace};
use sf_model::Design;
use sf_node::Node;
use sf_polish::Expr;
use std::alloc::{AllocError as NoMemory, Global};

/// A plan of least area, where only areas count.
fn least_plan(alloc: Global, design: &Design, node: &Node) -> Result<Option<(Expr, u64)>, NoMemory>
    requires subproblem { IsSubproblem design.now node.now }
    requires complete { IsTrue (is_complete node.now) }
    requires no_wire { design.now.weights.wire ≡ 0 }
    ensures solution { IfOk result (IsSolution design.now node.now) }
    ensures traced { IfOk result (λ found. IfSome found (λ pair. IsLeastTrace design.now node.now pair.0)) }
{
    let tokens = node.tokens();
    let spans = node.spans();
    let curve = root_curve(alloc, design, tokens, spans)?;
    let Some(point) = curve.least_area() else {
        return Ok(None);
    };
    let expr = trace(alloc, design, tokens, spans, point)?;
    Ok(Some((expr, u64::from(design.weights.area) * area(point))))
}

/// A plan of a solved subproblem that fits and costs least, and its cost; none exactly where no plan of the
/// subproblem fits. Where only areas count it is the trace of the least area on the root curve, of equal
/// areas of the narrowest.
pub fn solve(alloc: Global, design: &Design, node: &Node) -> Result<Option<(Expr, u64)>, NoMemory>
    requires subproblem { IsSubproblem design.now node.now }
    requires solved { IsTrue (is_solved design.now node.now) }
    ensures solution { IfOk result (IsSolution design.now node.now) }
    ensures traced { design.now.weights.wire ≡ 0
        → IfOk result (λ found. IfSome found (λ pair. IsLeastTrace design.now node.now pair.0)) }
{
    if design.weights.wire == 0 {
        return least_plan(alloc, design, node);
    }
    only_plan(alloc, design, node)
}
