//! What `plan` reads: a design, and the placement that its search begins with, where one is given.

ghost use Rattle.std.specs.Prelude.{◌≡◌, length, All, IfOk, IfSome};
ghost use Rattle.sf_anneal.specs.Measured.{IsFloorplan};
ghost use Rattle.sf_anneal.specs.Starts.{begun_plan};
ghost use Rattle.sf_model.specs.Legal.{block_count};
ghost use Rattle.sf_place.specs.Spots.{HasNearCorner, IsByNumber};
ghost use Rattle.sf_options.specs.Seen.{plan_seen, text_of};
ghost use Rattle.sf_designs.specs.Loads.{ReadsShelf, TellsNoLoad};
ghost use Rattle.sf_designs.specs.Outcome.{Ends};
ghost use Rattle.sf_designs.specs.Reading.{IfNamed};
ghost use Rattle.sf_designs.specs.Weighed.{admitted_in};
ghost use Rattle.sf_program.specs.Beginning.{is_soft, softness, Packs, PlacementRead};
ghost use Rattle.sf_program.specs.Planned.{BudgetedDesign, PlanDesign, PlanInput as AllRead};

use crate::budget::test_budget;
use sf_anneal::Beginning;
use sf_cuts::CutFault;
use sf_designs::{AdmittedParts, Stop, bare_fault, make_design, named_fault, read_admitted};
use sf_io::Shelf;
use sf_known::packed_beginning;
use sf_lex::Scale;
use sf_measuring::read_spots;
use sf_model::{Design, Spot};
use sf_options::PlanWords;
use sf_parts::{Kind, Parts, admitted_parts_keep_limits};
use std::alloc::{AllocError as NoMemory, Global};

/// What `plan` reads.
#[derive(Drop)]
pub struct PlanInput {
    pub design: Design,
    /// The plan to which the placement is packed that was given.
    pub begin: Option<Beginning>,
}

/// The design for which the named files stand, where the budget is within its limit.
pub fn read_plan<S: Shelf>(
    alloc: Global,
    shelf: &mut S,
    words: &PlanWords<'_>,
) -> Result<Design, Stop>
    ensures design { Ends (λ x. x) result (PlanDesign (S.seen shelf.old).holds (plan_seen words.now)) }
    ensures shelf { ReadsShelf (S.seen shelf.old) (S.seen shelf.new) result }
{
    let admitted = read_admitted(alloc, shelf, &words.design, words.weights)?;
    within_budget(alloc, words, admitted)
}

/// The design of admitted parts, where the budget is within its limit.
fn within_budget(
    alloc: Global,
    words: &PlanWords<'_>,
    admitted: AdmittedParts,
) -> Result<Design, Stop>
    ensures design { Ends (λ x. x) result (BudgetedDesign (plan_seen words.now) (admitted_in admitted)) }
    ensures tells { TellsNoLoad result }
{
    admitted_parts_keep_limits();
    let blocks = admitted.weighed.read.parts.blocks.as_slice().len() as u64;
    match test_budget(alloc, words.is_long, words.nodes, blocks) {
        Ok(()) => make_design(alloc, &words.design, words.weights, admitted),
        Err(stop) => Err(stop),
    }
}

/// Whether a block of this kind is soft.
fn is_soft(kind: Kind) -> bool
    ensures { result ≡ is_soft kind }
{
    match kind {
        Kind::Hard { .. } => false,
        Kind::Soft { .. } => true,
    }
}

/// Whether each block is soft, by number.
fn soft_blocks(alloc: Global, parts: &Parts) -> Result<Vec<bool>, NoMemory>
    ensures { IfOk result (λ soft. soft.items ≡ softness parts.now) }
{
    let blocks = parts.blocks.as_slice();
    blocks
        .iter()
        .map(|block| is_soft(block.kind))
        .collect(alloc)
}

/// What a search begins with where the blocks are placed in these spots.
fn pack(alloc: Global, design: &Design, soft: &[bool], spots: &[Spot]) -> Result<Beginning, Stop>
    requires one_each { length spots.now ≡ block_count design.now }
    requires soft { length soft.now ≡ block_count design.now }
    requires by_number { IsByNumber spots.now }
    requires near { All HasNearCorner spots.now }
    ensures packs { Ends (λ begin. begin) result (Packs soft.now design.now spots.now) }
    ensures floorplan { IfOk result (λ begin.
        IfSome begin.plan (λ plan. IsFloorplan design.now plan.0 plan.1)) }
    ensures tells { TellsNoLoad result }
{
    match packed_beginning(alloc, design, soft, spots) {
        Ok(begin) => Ok(begin),
        Err(CutFault::NotSlicing) => Err(bare_fault(alloc, "design", 0, "NotSlicing")?),
        Err(CutFault::Unlisted(block)) => {
            let name = &design.blocks.as_slice()[usize::from(block)].name;
            Err(named_fault(alloc, "Unlisted", name)?)
        }
        Err(CutFault::NoMemory) => Err(Stop::NoMemory),
    }
}

/// The same of the placement in the file of this name.
fn read_placement<S: Shelf>(
    alloc: Global,
    shelf: &mut S,
    scale: Scale,
    name: &str,
    design: &Design,
    soft: &[bool],
) -> Result<Beginning, Stop>
    requires { length soft.now ≡ block_count design.now }
    ensures begin { Ends (λ begin. begin) result
        (PlacementRead (S.seen shelf.old).holds scale.per_unit soft.now design.now name.now) }
    ensures floorplan { IfOk result (λ begin.
        IfSome begin.plan (λ plan. IsFloorplan design.now plan.0 plan.1)) }
    ensures shelf { ReadsShelf (S.seen shelf.old) (S.seen shelf.new) result }
{
    let spots = read_spots(alloc, shelf, scale, name, design)?;
    pack(alloc, design, soft, &spots)
}

/// The same where a file is named, and nothing where none is.
fn read_beginning<S: Shelf>(
    alloc: Global,
    shelf: &mut S,
    scale: Scale,
    name: Option<&str>,
    design: &Design,
    soft: &[bool],
) -> Result<Option<Beginning>, Stop>
    requires { length soft.now ≡ block_count design.now }
    ensures begin { let held = (S.seen shelf.old).holds in Ends (λ begin. begin) result
        (IfNamed (PlacementRead held scale.per_unit soft.now design.now) (text_of name.entry)) }
    ensures floorplan { IfOk result (λ begin.
        IfSome (begun_plan begin) (λ plan. IsFloorplan design.now plan.0 plan.1)) }
    ensures shelf { ReadsShelf (S.seen shelf.old) (S.seen shelf.new) result }
{
    match name {
        None => Ok(None),
        Some(name) => Ok(Some(read_placement(alloc, shelf, scale, name, design, soft)?)),
    }
}

/// All that the files stand for which the words of `plan` name.
pub fn read_input<S: Shelf>(
    alloc: Global,
    shelf: &mut S,
    words: &PlanWords<'_>,
) -> Result<PlanInput, Stop>
    ensures input { Ends (λ input. (input.design, input.begin)) result
        (AllRead (S.seen shelf.old).holds (plan_seen words.now)) }
    ensures floorplan { IfOk result (λ input.
        IfSome (begun_plan input.begin) (λ plan. IsFloorplan input.design plan.0 plan.1)) }
    ensures shelf { ReadsShelf (S.seen shelf.old) (S.seen shelf.new) result }
{
    let admitted = read_admitted(alloc, shelf, &words.design, words.weights)?;
    let soft = soft_blocks(alloc, &admitted.weighed.read.parts)?;
    let design = within_budget(alloc, words, admitted)?;
    let begin = read_beginning(
        alloc,
        shelf,
        words.design.scale,
        words.begin,
        &design,
        &soft,
    )?;
    Ok(PlanInput { design, begin })
}
