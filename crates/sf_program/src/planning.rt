//! The command `plan`.

ghost use Rattle.std.specs.Prelude.{◌≡◌, ◌≤◌, IfOk, IfSome, None};
ghost use Rattle.sf_anneal.specs.Measured.{IsFloorplan};
ghost use Rattle.sf_model.specs.Legal.{block_count};
ghost use Rattle.sf_certificate.specs.Valid.{decided};
ghost use Rattle.sf_pl_writer.specs.Length.{IsScale};
ghost use Rattle.sf_options.specs.Seen.{plan_seen, text_of};
ghost use Rattle.sf_options.specs.Options.{plan};
ghost use Rattle.sf_program.specs.Answer.{Obeys};
ghost use Rattle.sf_designs.specs.Loads.{ReadsShelf};
ghost use Rattle.sf_program.specs.Planned.{IsAnswered, IsReported, budget_of};
ghost use Rattle.sf_program.specs.Resumed.{IsGood};
ghost use Rattle.sf_designs.specs.Stores.{Gives};

use crate::budget::budget_of;
use crate::chosen::search_chosen;
use crate::plan_answer::{Ended, Names, ending_of, tell_none, tell_plan};
use crate::plan_input::read_input;
use sf_designs::{Stop, Work};
use sf_io::{Gate, Shelf};
use sf_known::{Begun, begin};
use sf_model::Design;
use sf_options::{BoundsChoice, PlanWords};
use sf_polish::Expr;
use sf_rounds::{Found, SearchOptions};
use std::alloc::{AllocError as NoMemory, Global};
use std::thread::Threads;

/// What is told of a search of a design.
pub fn tell_found(
    alloc: Global,
    bounds: BoundsChoice,
    design: &Design,
    found: Found,
    names: Names<'_>,
) -> Result<Work, NoMemory>
    requires valid { IsGood bounds design.now found.cert }
    requires blocks { found.cert.blocks ≡ block_count design.now }
    requires plan { found.plan ≡ found.cert.plan }
    requires decided { found.decided ≡ decided found.cert.tags }
    requires scale { IsScale names.scale }
    ensures { let names = names.entry in IfOk result (Gives
        (IsReported bounds design.now names.scale names.cert.now (text_of names.pl) found.cert)) }
{
    let Found {
        plan,
        cert,
        decided,
        ..
    } = found;
    let ended = Ended {
        cert: &cert,
        said: ending_of(cert.cost, cert.bound),
        decided,
    };
    match plan {
        None => tell_none(alloc, design, ended, names),
        Some(expr) => tell_plan(alloc, design, ended, expr, names),
    }
}

/// Searches the design for which the named files stand, and tells what was found.
pub fn plan<R: Threads + Sync, S: Shelf, G: Gate>(
    rt: &R,
    alloc: Global,
    words: &PlanWords<'_>,
    shelf: &mut S,
    gate: &G,
) -> Result<Work, Stop>
    requires scale { IsScale words.now.design.scale.per_unit }
    ensures answer { Obeys (plan (plan_seen words.now)) (S.seen shelf.old).holds result }
    ensures shelf { ReadsShelf (S.seen shelf.old) (S.seen shelf.new) result }
{
    let input = read_input(alloc, shelf, words)?;
    let (starts, bounds) = (words.starts, words.bounds);
    let Begun { design, start } = begin(rt, alloc, input.design, input.begin, starts, bounds)?;
    let names = Names {
        cert: words.cert,
        pl: words.pl_out,
        scale: words.design.scale.per_unit,
    };
    let (nodes, workers) = (words.nodes, words.workers);
    let work = search_design(
        rt, alloc, bounds, &design, start, nodes, workers, names, gate,
    )?;
    Ok(work)
}

/// Searches a design with the budget that was asked for, from this plan of this cost on where there is one,
/// and tells what was found.
pub fn search_design<R: Threads + Sync, G: Gate>(
    rt: &R,
    alloc: Global,
    bounds: BoundsChoice,
    design: &Design,
    start: Option<(Expr, u64)>,
    nodes: Option<u64>,
    workers: u16,
    names: Names<'_>,
    gate: &G,
) -> Result<Work, NoMemory>
    requires start { IfSome start (λ plan. IsFloorplan design.now plan.0 plan.1) }
    requires workers { (1 ≤ workers) × (workers ≤ 16) }
    requires scale { IsScale names.scale }
    ensures { let budget = budget_of nodes (block_count design.now) in
        let names = names.entry in IfOk result (Gives
        (IsAnswered bounds design.now workers budget start names.scale names.cert.now (text_of names.pl))) }
{
    let nodes = budget_of(nodes, u64::from(design.block_count()));
    let options = SearchOptions { workers, nodes };
    let found = search_chosen(rt, alloc, bounds, design, start, options, gate)?;
    tell_found(alloc, bounds, design, found, names)
}
