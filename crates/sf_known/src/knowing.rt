//! What a design gets to know.

ghost use Rattle.std.specs.Prelude.{◌≡◌, ◌≤◌, IfOk, IfSome, MatchOption};
ghost use Rattle.sf_anneal.specs.Measured.{IsFloorplan};
ghost use Rattle.sf_model.specs.Cost.{NoneFits};
ghost use Rattle.sf_model.specs.Legal.{block_count};
ghost use Rattle.sf_model.specs.Tree.{tree_of};
ghost use Rattle.sf_subsets.specs.Floors.{IsFitting, KnowsArea};
ghost use Rattle.sf_known.specs.Known.{HasKnownArea, IsKnownBy, Knows};
ghost use Rattle.sf_known.specs.declared.knowing.TheConstants.{FEW_BLOCKS};

use crate::spelling::{plan_found, spelled};
use sf_model::{Design, Plan};
use sf_options::BoundsChoice;
use sf_polish::Expr;
use sf_subsets::learn_area;
use std::alloc::{AllocError as NoMemory, Global};

/// The most blocks of a design that gets to know its least area.
const FEW_BLOCKS: u16 = 16;

/// A design that knows what was asked for, and a plan of its least area, with its cost, where that is known
/// and one fits.
#[derive(Drop)]
pub struct Known {
    pub design: Design,
    pub plan: Option<(Expr, u64)>,
}

/// The design that knows what the bounds that were asked for take into account, and the plan that is known. The
/// floorplan that walks found, if they found one, limits what has to be looked at for that.
pub fn know(
    alloc: Global,
    bounds: BoundsChoice,
    design: Design,
    walked: &Option<(Expr, u64)>,
) -> Result<Known, NoMemory>
    requires { IfSome walked.now (λ p. IsFloorplan design p.0 p.1) }
    ensures knows { IfOk result (λ known. Knows bounds design known.design) }
    ensures plan { IfOk result (λ known. IsKnownBy bounds known.design known.plan) }
    ensures floorplan { IfOk result (λ known.
        IfSome known.plan (λ p. IsFloorplan known.design p.0 p.1)) }
{
    match bounds {
        BoundsChoice::Strong if design.block_count() <= FEW_BLOCKS => {
            let walked = plan_found(alloc, walked)?;
            know_few(alloc, design, walked)
        }
        BoundsChoice::Standard
        | BoundsChoice::Strong
        | BoundsChoice::Pair
        | BoundsChoice::Fit
        | BoundsChoice::Both => Ok(Known { design, plan: None }),
    }
}

/// The same of a design of few blocks.
fn know_few(alloc: Global, design: Design, walked: Option<Plan>) -> Result<Known, NoMemory>
    requires few { block_count design ≤ FEW_BLOCKS }
    requires walked { IfSome walked (λ plan. IsFitting design (tree_of plan)) }
    ensures knows { IfOk result (λ known. KnowsArea design known.design) }
    ensures plan { IfOk result (λ known. MatchOption known.plan
        (NoneFits known.design)
        (λ p. HasKnownArea known.design p.0 p.1)) }
{
    let mut design = design;
    match learn_area(alloc, &mut design, walked)? {
        None => Ok(Known { design, plan: None }),
        Some(plan) => {
            let plan = Some(spelled(alloc, &design, plan)?);
            Ok(Known { design, plan })
        }
    }
}

/// The design alone that knows what the bounds that were asked for take into account.
pub fn know_alone(alloc: Global, bounds: BoundsChoice, design: Design) -> Result<Design, NoMemory>
    ensures { IfOk result (Knows bounds design) }
{
    match bounds {
        BoundsChoice::Strong if design.block_count() <= FEW_BLOCKS => {
            let mut known = design;
            learn_area(alloc, &mut known, None)?;
            Ok(known)
        }
        BoundsChoice::Standard
        | BoundsChoice::Strong
        | BoundsChoice::Pair
        | BoundsChoice::Fit
        | BoundsChoice::Both => Ok(design),
    }
}
