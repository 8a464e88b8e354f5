//! The law of branching.

ghost use Rattle.std.specs.Prelude.{ℕ, IsFalse};
ghost use Rattle.sf_model.specs.declared.design.Design.{Design};
ghost use Rattle.sf_model.specs.Tree.{Tree};
ghost use Rattle.sf_node.specs.Parts.{Parts};
ghost use Rattle.sf_node.specs.Subproblem.{Belongs, is_complete};
ghost use Rattle.sf_node.specs.Children.{extended, split, CanSplit, IsSubproblem};
ghost use Rattle.sf_node.specs.Laws.{BelongsToOne};

/// Each plan of a subproblem belongs to exactly one of its children.
pub fn children_share_plans()
    ensures extended { (design : Design) (node : Parts) (tree : Tree) → IsSubproblem design node
        → IsFalse (is_complete node) → Belongs design node tree → BelongsToOne design (extended node) tree }
    ensures split { (design : Design) (node : Parts) (b : ℕ) (tree : Tree) → IsSubproblem design node
        → CanSplit node b → Belongs design node tree → BelongsToOne design (split node b) tree }
{}
