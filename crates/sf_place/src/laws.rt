//! The law of verdicts.

ghost use Rattle.std.specs.Prelude.{◌≡◌, List};
ghost use Rattle.sf_model.specs.declared.design.Design.{Design};
ghost use Rattle.sf_model.specs.declared.plan.Spot.{Spot};
ghost use Rattle.sf_place.specs.declared.verdict.Verdict.{Verdict};
ghost use Rattle.sf_place.specs.Spots.{IsByNumber};
ghost use Rattle.sf_place.specs.Verdict.{IsVerdict};

/// Spots by number have one verdict.
pub fn verdicts_are_one()
    ensures { (design : Design) (spots : List Spot) (v w : Verdict) → IsByNumber spots
        → IsVerdict design spots v → IsVerdict design spots w → v ≡ w }
{}
