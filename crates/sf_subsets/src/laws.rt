//! The law of what a table lets a design know.

ghost use Rattle.std.specs.Prelude.{◌≡◌};
ghost use Rattle.sf_model.specs.declared.design.Design.{Design};
ghost use Rattle.sf_subsets.specs.Floors.{KnowsArea};

/// A design has one least area, so it becomes one design where it knows that.
pub fn least_areas_are_one()
    ensures { (design : Design) (first : Design) (second : Design)
        → KnowsArea design first → KnowsArea design second → first ≡ second }
{}
