//! The law of root curves.

ghost use Rattle.std.specs.Prelude.{◌≡◌, ℕ, List, length};
ghost use Rattle.sf_model.specs.declared.design.Design.{Design};
ghost use Rattle.sf_model.specs.declared.parts.Shape.{Shape};
ghost use Rattle.sf_model.specs.Legal.{block_count};
ghost use Rattle.sf_polish.specs.declared.expr.Expr.{Expr};
ghost use Rattle.sf_polish.specs.declared.expr.Token.{Token};
ghost use Rattle.sf_polish.specs.Normal.{IsNormal};
ghost use Rattle.sf_curves.specs.Choices.{IsRootCurve, IsTraceOf};
ghost use Rattle.sf_curves.specs.Points.{IsLeastArea};

/// Tokens and spans have one root curve, it has one point of least area, and a point has one trace with a
/// shape for each block.
pub fn traces_are_one()
    ensures curve { (design : Design) (tokens : List Token) (spans : List (ℕ × ℕ))
        (points others : List Shape)
        → IsRootCurve design tokens spans points → IsRootCurve design tokens spans others → points ≡ others }
    ensures least { (design : Design) (tokens : List Token) (spans : List (ℕ × ℕ)) (points : List Shape)
        (p q : Shape)
        → IsRootCurve design tokens spans points → IsLeastArea points p → IsLeastArea points q → p ≡ q }
    ensures trace { (design : Design) (tokens : List Token) (spans : List (ℕ × ℕ)) (point : Shape)
        (e f : Expr)
        → IsNormal (block_count design) tokens → length e.shapes ≡ block_count design
        → length f.shapes ≡ block_count design
        → IsTraceOf design tokens spans point e → IsTraceOf design tokens spans point f → e ≡ f }
{}
