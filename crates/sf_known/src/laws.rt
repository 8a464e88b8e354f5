//! The law of what a design knows.

ghost use Rattle.std.specs.Prelude.{◌≡◌};
ghost use Rattle.sf_model.specs.declared.design.Design.{Design};
ghost use Rattle.sf_options.specs.declared.command.BoundsChoice.{BoundsChoice};
ghost use Rattle.sf_known.specs.Known.{Knows};

/// By the same bounds a design gets to know one thing, and keeps its blocks.
pub fn designs_know_one_thing()
    ensures one { (bounds : BoundsChoice) (design : Design) (first : Design) (second : Design)
        → Knows bounds design first → Knows bounds design second → first ≡ second }
    ensures blocks { (bounds : BoundsChoice) (design : Design) (known : Design)
        → Knows bounds design known → known.blocks ≡ design.blocks }
{}
