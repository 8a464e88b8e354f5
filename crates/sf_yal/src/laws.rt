//! What the parts of a design keep of the text that stands for them.

ghost use Rattle.std.specs.Prelude.{ℕ, List};
ghost use Rattle.sf_parts.specs.Admitted.{HasSizes, HasPinsInRange};
ghost use Rattle.sf_parts.specs.declared.raw.Parts.{Parts};
ghost use Rattle.sf_yal.specs.Standing.{StandsFor};

/// The sides of each block are at least 1, and each pin is of a block or a pad that is there.
pub fn parts_keep_ranges()
    ensures sizes { (scale : ℕ) (text : List ℕ) (out : Parts) → StandsFor scale text out → HasSizes out }
    ensures pins { (scale : ℕ) (text : List ℕ) (out : Parts) → StandsFor scale text out → HasPinsInRange out }
{}
