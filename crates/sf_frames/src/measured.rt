//! The answer of a measurement.

ghost use Rattle.sf_model.specs.declared.design.Design.{Design as DesignValue};
ghost use Rattle.sf_node.specs.Parts.{Parts};
ghost use Rattle.sf_standard.specs.Standard.{plans_of};
ghost use Rattle.sf_frames.specs.Measured.{IsMeasured};
ghost use Rattle.sf_frames.specs.Sums.{AreSumsOrNone};

use crate::sums::Sums;

/// What the items and the unused blocks of a subproblem take, where each fits in some way. Or that the frames
/// would need too many points.
#[derive(Clone, Copy)]
pub enum Measured {
    TooLarge,
    FitsInNoWay,
    Takes(Sums),
}

/// The answer from the sums, of which there are none where some group fits in no way.
pub fn answer_of(sums: Option<Sums>) -> Measured
    ensures { (design : DesignValue) (node : Parts)
        → AreSumsOrNone (plans_of design node) sums → IsMeasured design node result }
{
    match sums {
        None => Measured::FitsInNoWay,
        Some(sums) => Measured::Takes(sums),
    }
}
