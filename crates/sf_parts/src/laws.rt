//! Parts have one design.

ghost use Rattle.std.specs.Prelude.{◌≡◌, ℕ, List};
ghost use Rattle.sf_model.specs.declared.design.Design.{Design};
ghost use Rattle.sf_model.specs.declared.parts.Outline.{Outline};
ghost use Rattle.sf_model.specs.declared.parts.Shape.{Shape};
ghost use Rattle.sf_model.specs.declared.parts.Weights.{Weights};
ghost use Rattle.sf_parts.specs.declared.raw.Parts.{Parts};
ghost use Rattle.sf_parts.specs.Built.{IsDesignOf};

/// Parts, lists of shapes, an outline, weights and net weights have at most one design.
pub fn designs_are_determined()
    ensures { (parts : Parts) (lists : List (List Shape)) (outline : Outline) (weights : Weights)
        (net_weights : List ℕ) (d : Design) (e : Design)
        → IsDesignOf parts lists outline weights net_weights d
        → IsDesignOf parts lists outline weights net_weights e → d ≡ e }
{}
