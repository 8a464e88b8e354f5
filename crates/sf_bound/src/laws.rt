//! The law of solved subproblems.

ghost use Rattle.std.specs.Prelude.{◌≡◌, ℕ, IsTrue};
ghost use Rattle.sf_model.specs.declared.design.Design.{Design};
ghost use Rattle.sf_polish.specs.declared.expr.Expr.{Expr};
ghost use Rattle.sf_node.specs.Parts.{Parts};
ghost use Rattle.sf_node.specs.Subproblem.{is_solved};
ghost use Rattle.sf_node.specs.Children.{IsSubproblem};
ghost use Rattle.sf_bound.specs.Cheapest.{IsPlanOf, IsLeastTrace};

use sf_curves::traces_are_one;

/// A solved subproblem leaves one expression to answer: where only areas count the trace of the least area,
/// else the one plan that is left.
pub fn solved_plans_are_one()
    ensures { (design : Design) (node : Parts) (first second : Expr) (y z : ℕ)
        → IsSubproblem design node → IsTrue (is_solved design node)
        → IsPlanOf design node first y → IsPlanOf design node second z
        → (design.weights.wire ≡ 0 → IsLeastTrace design node first)
        → (design.weights.wire ≡ 0 → IsLeastTrace design node second)
        → first ≡ second }
{
    traces_are_one();
}
