//! What becomes of one subproblem.

ghost use Rattle.std.specs.Prelude.{◌≡◌, IfOk};
ghost use Rattle.sf_node.specs.Children.{IsSubproblem};
ghost use Rattle.sf_worker.specs.Decided.{IsVisit};

use sf_bound::{Bounds, solve};
use sf_model::Design;
use sf_node::{Node, Values};
use sf_polish::Expr;
use std::alloc::AllocError as NoMemory;

/// What becomes of the subproblem that is next.
#[derive(Drop)]
pub enum Visit {
    Closed,
    Solved(Expr),
    Extended,
    Split(u16),
}

/// Decides a subproblem with its bound against a value that some plan costs, or that none does. Inlined, since
/// of most subproblems a comparison or two decides.
#[inline(always)]
pub fn decide<B: Bounds>(
    design: &Design,
    bounds: &B,
    node: &Node,
    bound: u64,
    value: u64,
) -> Result<Visit, NoMemory>
    requires subproblem { IsSubproblem design.now node.now }
    requires bound { bound ≡ B.Values.value bounds.now design.now node.now }
    ensures { IfOk result
        (λ seen. IsVisit design.now (B.Values.value bounds.now design.now) node.now value seen) }
{
    if bound >= value {
        return Ok(Visit::Closed);
    }
    if node.is_solved(design) {
        let Some((expr, _)) = solve(node.allocator(), design, node)? else {
            unreachable!()
        };
        return Ok(Visit::Solved(expr));
    }
    if node.is_complete() {
        let Some(block) = node.first_wide() else {
            unreachable!()
        };
        return Ok(Visit::Split(block));
    }
    Ok(Visit::Extended)
}
