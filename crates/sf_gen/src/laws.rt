//! The texts are read as what they spell, and that may become a design.

ghost use Rattle.std.specs.Prelude.{◌≡◌, ◌≤◌, ℕ, Bool, List, Ok, Some, None};
ghost use Rattle.sf_parts.specs.Admitted.{IsAdmitted};
ghost use Rattle.sf_parts.specs.Built.{first_shapeless};
ghost use Rattle.sf_parts.specs.declared.fault.BuildFault.{BuildFault};
ghost use Rattle.sf_model.specs.declared.parts.Shape.{Shape};
ghost use Rattle.sf_soft_shapes.specs.Listed.{AreListsOf, HasNoneFor};
ghost use Rattle.sf_gsrc.specs.Blocks.{blocks_read};
ghost use Rattle.sf_gsrc.specs.Nets.{nets_read};
ghost use Rattle.sf_gsrc.specs.Join.{joined};
ghost use Rattle.sf_gsrc.specs.Places.{places_read};
ghost use Rattle.sf_gen.specs.declared.design.Kinds.{Kinds};
ghost use Rattle.sf_gen.specs.Drawn.{ends, sizes};
ghost use Rattle.sf_gen.specs.Texts.{blocks_text, nets_text, pl_text};
ghost use Rattle.sf_gen.specs.Designs.{blocks_out, nets_out, parts_of, places_out};

/// The text of the nets is read as the nets.
pub fn nets_are_read()
    ensures { (seed n : ℕ) → 1 ≤ n → n ≤ 320
        → nets_read (nets_text (ends seed n)) ≡ Ok (nets_out (ends seed n)) }
{}

/// The text of the blocks is read as the blocks and the names of the pads.
pub fn blocks_are_read()
    ensures { (kinds : Kinds) (seed n : ℕ) → 1 ≤ n → n ≤ 320
        → blocks_read 1 (blocks_text kinds (sizes seed n)) ≡ Ok (blocks_out kinds (sizes seed n)) }
{}

/// The text of the places is read as the pads at the corners.
pub fn places_are_read()
    ensures { (n : ℕ) → n ≤ 320 → places_read 1 (pl_text n) ≡ Ok (places_out n) }
{}

/// What the texts are read as is joined to parts that may become a design.
pub fn parts_are_admitted()
    ensures joined { (kinds : Kinds) (seed n : ℕ)
        → joined (blocks_out kinds (sizes seed n)) (Some (nets_out (ends seed n))) (Some (places_out n))
        ≡ Ok (parts_of kinds seed n) }
    ensures admitted { (kinds : Kinds) (seed n : ℕ) → 1 ≤ n → n ≤ 320 → IsAdmitted (parts_of kinds seed n) }
{}

/// Each block has a shape, hard or soft, turned or not, whatever the number of shapes.
pub fn blocks_have_shapes()
    ensures shaped { (kinds : Kinds) (seed n k : ℕ) (fixed : Bool) (lists : List (List Shape))
        → 2 ≤ k → AreListsOf k fixed (parts_of kinds seed n).blocks lists
        → first_shapeless (parts_of kinds seed n).blocks lists ≡ None }
    ensures never_refused { (kinds : Kinds) (seed n k : ℕ) (fixed : Bool) (fault : BuildFault)
        → 2 ≤ k → HasNoneFor k fixed (parts_of kinds seed n).blocks fault → ⊥ }
{}
