//! From parts to a design.

ghost use Rattle.std.specs.Prelude.{◌≡◌, IfOk, None};
ghost use Rattle.sf_parts.specs.Built.{HasShapeChoices, first_shapeless};
ghost use Rattle.sf_options.specs.Seen.{design_seen, weights_seen};
ghost use Rattle.sf_designs.specs.Loads.{ReadsShelf, TellsNoLoad};
ghost use Rattle.sf_designs.specs.Outcome.{Ends};
ghost use Rattle.sf_designs.specs.Reading.{Admitted, Built, DesignMade, DesignRead, ListsMade, PartsAdmitted};
ghost use Rattle.sf_designs.specs.Weighed.{admitted_in, weighed_in};

use crate::reading::read_parts;
use crate::refusals::build_fault;
use crate::stop::Stop;
use crate::weighed::{AdmittedParts, Weighed};
use sf_io::Shelf;
use sf_model::{Design, Outline, Shapes, Weights};
use sf_options::{DesignWords, WeightWords};
use sf_parts::{Build, BuildFault};
use sf_soft_shapes::lists;
use std::alloc::Global;

/// The parts, where they may become a design.
pub fn admit(alloc: Global, weighed: Weighed) -> Result<AdmittedParts, Stop>
    ensures admitted { Ends admitted_in result (Admitted (weighed_in weighed)) }
    ensures tells { TellsNoLoad result }
{
    match weighed.read.parts.admit(alloc) {
        Ok(()) => Ok(AdmittedParts { weighed }),
        Err(fault) => Err(build_fault(alloc, fault)?),
    }
}

/// The parts of the named files, where they may become a design.
pub fn read_admitted<S: Shelf>(
    alloc: Global,
    shelf: &mut S,
    words: &DesignWords<'_>,
    weights: WeightWords<'_>,
) -> Result<AdmittedParts, Stop>
    ensures parts { Ends admitted_in result
        (PartsAdmitted (S.seen shelf.old).holds (design_seen words.now) (weights_seen weights.entry)) }
    ensures shelf { ReadsShelf (S.seen shelf.old) (S.seen shelf.new) result }
{
    let weighed = read_parts(alloc, shelf, words.scale, words.input, weights.net_weights)?;
    admit(alloc, weighed)
}

/// The shapes of each block, or what is refused of them.
fn make_lists(
    alloc: Global,
    words: &DesignWords<'_>,
    admitted: &AdmittedParts,
) -> Result<Vec<Shapes>, Stop>
    ensures lists { Ends (λ v. v.items) result
        (ListsMade (design_seen words.now) admitted.now.weighed.read.parts) }
    ensures choices { IfOk result (λ v. HasShapeChoices admitted.now.weighed.read.parts.blocks v.items) }
    ensures shaped { IfOk result (λ v. first_shapeless admitted.now.weighed.read.parts.blocks v.items ≡ None) }
    ensures tells { TellsNoLoad result }
{
    match lists(
        alloc,
        &admitted.weighed.read.parts,
        words.shapes,
        words.is_fixed,
    ) {
        Ok(lists) => Ok(lists),
        Err(fault) => Err(build_fault(alloc, fault)?),
    }
}

/// The design of these parts and shapes, with what the words say of its outline and weights.
fn build(
    alloc: Global,
    words: &DesignWords<'_>,
    weights: WeightWords<'_>,
    admitted: AdmittedParts,
    lists: Vec<Shapes>,
) -> Result<Design, Stop>
    requires choices { HasShapeChoices admitted.weighed.read.parts.blocks lists.items }
    requires shaped { first_shapeless admitted.weighed.read.parts.blocks lists.items ≡ None }
    ensures design { Ends (λ x. x) result
        (Built (design_seen words.now) (weights_seen weights.entry) (admitted_in admitted) lists.items) }
    ensures tells { TellsNoLoad result }
{
    let outline = Outline {
        w: words.width,
        h: words.height,
    };
    let weights = Weights {
        area: weights.area,
        wire: weights.wire,
    };
    let Weighed { read, net_weights } = admitted.weighed;
    match Design::build(alloc, read.parts, lists, outline, weights, &net_weights) {
        Ok(design) => Ok(design),
        Err(BuildFault::NoMemory) => Err(Stop::NoMemory),
        Err(_) => unreachable!(),
    }
}

/// The design of admitted parts.
pub fn make_design(
    alloc: Global,
    words: &DesignWords<'_>,
    weights: WeightWords<'_>,
    admitted: AdmittedParts,
) -> Result<Design, Stop>
    ensures design { Ends (λ x. x) result
        (DesignMade (design_seen words.now) (weights_seen weights.entry) (admitted_in admitted)) }
    ensures tells { TellsNoLoad result }
{
    match make_lists(alloc, words, &admitted) {
        Ok(lists) => build(alloc, words, weights, admitted, lists),
        Err(stop) => Err(stop),
    }
}

/// The design for which the named files stand.
pub fn read_design<S: Shelf>(
    alloc: Global,
    shelf: &mut S,
    words: &DesignWords<'_>,
    weights: WeightWords<'_>,
) -> Result<Design, Stop>
    ensures design { Ends (λ x. x) result
        (DesignRead (S.seen shelf.old).holds (design_seen words.now) (weights_seen weights.entry)) }
    ensures shelf { ReadsShelf (S.seen shelf.old) (S.seen shelf.new) result }
{
    let admitted = read_admitted(alloc, shelf, words, weights)?;
    make_design(alloc, words, weights, admitted)
}
