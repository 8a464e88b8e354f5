//! Expressions and plans correspond.

ghost use Rattle.std.specs.Prelude.{◌≡◌, ℕ, length};
ghost use Rattle.sf_model.specs.Tree.{Tree, HasEachOnce};
ghost use Rattle.sf_polish.specs.declared.expr.Expr.{Expr};
ghost use Rattle.sf_polish.specs.Normal.{IsNormal};
ghost use Rattle.sf_polish.specs.Postfix.{IsSkewed, Spells};

/// A normal expression spells exactly one plan, which is skewed, and a skewed plan is spelled by exactly one
/// expression with a shape for each block. So `plan_of` and `expr_of` are each other's inverse.
pub fn expressions_spell_skewed_plans()
    ensures some_plan { (blocks : ℕ) (expr : Expr) → IsNormal blocks expr.tokens
        → (tree : Tree) × Spells expr tree × IsSkewed tree }
    ensures one_plan { (expr : Expr) (s t : Tree) → Spells expr s → Spells expr t → s ≡ t }
    ensures each_once { (blocks : ℕ) (expr : Expr) (tree : Tree) → IsNormal blocks expr.tokens
        → Spells expr tree
        → HasEachOnce blocks tree }
    ensures normal { (blocks : ℕ) (expr : Expr) (tree : Tree) → HasEachOnce blocks tree → IsSkewed tree
        → Spells expr tree → IsNormal blocks expr.tokens }
    ensures one_expression { (blocks : ℕ) (e f : Expr) (tree : Tree) → HasEachOnce blocks tree
        → length e.shapes ≡ blocks → length f.shapes ≡ blocks → Spells e tree → Spells f tree → e ≡ f }
{}
