//! What the parts of a design keep of the files that they are joined from.

ghost use Rattle.std.specs.Prelude.{◌≡◌, ℕ, List, Option, Ok, IfSome, All, length};
ghost use Rattle.sf_parts.specs.Admitted.{IsSized, HasSizes, HasPinsInRange, first_refusal};
ghost use Rattle.sf_parts.specs.declared.raw.Parts.{Parts};
ghost use Rattle.sf_gsrc.specs.declared.output.GsrcBlocks.{GsrcBlocks};
ghost use Rattle.sf_gsrc.specs.declared.output.GsrcNets.{GsrcNets};
ghost use Rattle.sf_gsrc.specs.declared.output.GsrcPlaces.{GsrcPlaces};
ghost use Rattle.sf_gsrc.specs.Join.{joined, nets_in, numbered};
ghost use Rattle.sf_gsrc.specs.NetsStanding.{NetsStandFor};
ghost use Rattle.sf_gsrc.specs.Ranges.{HasPinsInAnyRange};
ghost use Rattle.sf_gsrc.specs.Standing.{StandsFor};

/// Each block of a blocks file has a size: both sides of a hard block, or the area of a soft one, are at
/// least 1.
pub fn blocks_have_sizes()
    ensures { (scale : ℕ) (text : List ℕ) (out : GsrcBlocks) → StandsFor scale text out
        → All (λ b. IsSized b.kind) out.blocks }
{}

/// A nets file gives its pins by names, so none of them is out of range.
pub fn nets_name_their_pins()
    ensures { (text : List ℕ) (out : GsrcNets) → NetsStandFor text out → HasPinsInAnyRange out.nets }
{}

/// Joining keeps the blocks and the nets, so the parts have as many nets as the files, and sizes and pins
/// in range where the files have them.
pub fn joined_parts_keep_ranges()
    ensures sizes { (blocks : GsrcBlocks) (nets : Option GsrcNets)
        (places : Option GsrcPlaces) (parts : Parts) → joined blocks nets places ≡ Ok parts
        → All (λ b. IsSized b.kind) blocks.blocks → HasSizes parts }
    ensures pins { (blocks : GsrcBlocks) (nets : Option GsrcNets)
        (places : Option GsrcPlaces) (parts : Parts) → joined blocks nets places ≡ Ok parts
        → IfSome nets (λ out. HasPinsInAnyRange out.nets) → HasPinsInRange parts }
    ensures nets { (blocks : GsrcBlocks) (nets : Option GsrcNets)
        (places : Option GsrcPlaces) (parts : Parts) → joined blocks nets places ≡ Ok parts
        → length parts.nets ≡ length (nets_in nets) }
{}

/// Numbers in the place of names change no fault: the parts are admitted, or refused for the same reason.
pub fn numbers_change_no_fault()
    ensures { (parts : Parts) → first_refusal (numbered parts) ≡ first_refusal parts }
{}
