//! Each move is its own inverse, and words determine what walks find.

ghost use Rattle.std.specs.Prelude.{◌≡◌, ◌+◌, ◌<◌, ◌≤◌, ℕ, List, length, Option, Some, Contains, slice_index_or};
ghost use Rattle.rand_core.specs.Stream.{Stream};
ghost use Rattle.sf_model.specs.declared.design.Design.{Design};
ghost use Rattle.sf_polish.specs.declared.expr.Expr.{Expr};
ghost use Rattle.sf_polish.specs.declared.expr.Token.{Token};
ghost use Rattle.sf_polish.specs.Normal.{operands};
ghost use Rattle.sf_anneal.specs.Moves.{AreNormal, swapped, runs, flipped, stepped, MayStep};
ghost use Rattle.sf_anneal.specs.Starts.{first_least, IsStarts};
ghost use Rattle.sf_anneal.specs.Walk.{IsWalk};

/// Each move, made again at the same place, may be made and restores the tokens.
pub fn moves_are_their_inverses()
    ensures swapped { (tokens : List Token) (j : ℕ) → j + 1 < operands tokens
        → (j + 1 < operands (swapped tokens j)) × (swapped (swapped tokens j) j ≡ tokens) }
    ensures flipped { (tokens : List Token) (k : ℕ) → k < runs tokens
        → (k < runs (flipped tokens k)) × (flipped (flipped tokens k) k ≡ tokens) }
    ensures stepped { (tokens : List Token) (i : ℕ) → AreNormal tokens → i + 1 < length tokens
        → MayStep tokens i → MayStep (stepped tokens i) i × (stepped (stepped tokens i) i ≡ tokens) }
{}

/// Words determine what a walk finds, and a seed what several walks find: one of least cost among their
/// results.
pub fn walks_are_one()
    ensures walk { (design : Design) (words : Stream) (moves : ℕ) (a b : Option (Expr × ℕ))
        → IsWalk design words moves a → IsWalk design words moves b → a ≡ b }
    ensures starts { (design : Design) (seed count moves : ℕ) (a b : Option (Expr × ℕ))
        → IsStarts design seed count moves a → IsStarts design seed count moves b → a ≡ b }
    ensures least { (results : List (Option (Expr × ℕ))) (i : ℕ) (d : Option (Expr × ℕ)) (q : Expr × ℕ)
        → i < length results → slice_index_or results i d ≡ Some q
        → (p : Expr × ℕ) × (first_least results ≡ Some p) × (p.1 ≤ q.1) }
    ensures among { (results : List (Option (Expr × ℕ))) (p : Expr × ℕ) → first_least results ≡ Some p
        → Contains results (Some p) }
{}
