//! A block has one list of shapes.

ghost use Rattle.std.specs.Prelude.{◌≡◌, ℕ, Bool, List, Some};
ghost use Rattle.std.specs.Option.{option_map};
ghost use Rattle.sf_parts.specs.Built.{first_shapeless};
ghost use Rattle.sf_parts.specs.declared.fault.BuildFault.{BuildFault};
ghost use Rattle.sf_parts.specs.declared.fault.BuildFault.TheVariants.{NoShape};
ghost use Rattle.sf_model.specs.declared.parts.Shape.{Shape};
ghost use Rattle.sf_parts.specs.declared.raw.Kind.{Kind};
ghost use Rattle.sf_parts.specs.declared.raw.RawBlock.{RawBlock};
ghost use Rattle.sf_soft_shapes.specs.Listed.{IsListOf, AreListsOf, HasNoneFor};

/// A block has at most one list, and blocks have at most one list each. At most one block is the first
/// without a shape, and it is the first whose list is empty.
pub fn lists_are_determined()
    ensures list { (k : ℕ) (fixed : Bool) (kind : Kind) (a b : List Shape) → IsListOf k fixed kind a
        → IsListOf k fixed kind b → a ≡ b }
    ensures lists { (k : ℕ) (fixed : Bool) (blocks : List RawBlock) (a b : List (List Shape))
        → AreListsOf k fixed blocks a → AreListsOf k fixed blocks b → a ≡ b }
    ensures fault { (k : ℕ) (fixed : Bool) (blocks : List RawBlock) (f g : BuildFault)
        → HasNoneFor k fixed blocks f → HasNoneFor k fixed blocks g → f ≡ g }
    ensures empty { (k : ℕ) (fixed : Bool) (blocks : List RawBlock) (lists : List (List Shape))
        (f : BuildFault) → AreListsOf k fixed blocks lists → HasNoneFor k fixed blocks f
        → option_map NoShape (first_shapeless blocks lists) ≡ Some f }
{}
