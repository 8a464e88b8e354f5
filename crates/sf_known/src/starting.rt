//! What a search begins with.

ghost use Rattle.std.specs.Prelude.{◌≡◌, ◌≤◌, IfOk, IfSome};
ghost use Rattle.sf_anneal.specs.Measured.{IsFloorplan};
ghost use Rattle.sf_anneal.specs.Starts.{begun_plan, IsImprovedStarts};
ghost use Rattle.sf_known.specs.Initial.{IsSearchInput, trials_of};
ghost use Rattle.sf_model.specs.Legal.{block_count};
ghost use Rattle.sf_options.specs.Seen.{starts_seen};

use crate::choosing::cheaper;
use crate::knowing::know;
use crate::routing::find_routes;
use sf_anneal::{Beginning, improved_starts};
use sf_model::Design;
use sf_options::{BoundsChoice, StartWords};
use sf_polish::Expr;
use std::alloc::{AllocError as NoMemory, Global};
use std::thread::Threads;

/// A design that knows what was asked for, with the paths that were found for it, and the plan that its search
/// begins with, with its cost.
#[derive(Drop)]
pub struct Begun {
    pub design: Design,
    pub start: Option<(Expr, u64)>,
}

/// How many trials make a start better: what was asked for, or its default.
fn trials_of(improve: Option<u64>, blocks: u16) -> u32
    requires told { IfSome improve (λ n. n ≤ 1_000_000_000) }
    requires blocks { blocks ≤ 320 }
    ensures { result ≡ trials_of improve blocks }
{
    match improve {
        Some(trials) => trials as u32,
        None => (8_000 * u32::from(blocks)).min(800_000),
    }
}

/// The least of what the walks that were asked for find, each made better, and of what is given to begin with,
/// made better, with its cost. None where there is no floorplan among these.
fn find_start<R: Threads + Sync>(
    rt: &R,
    alloc: Global,
    design: &Design,
    begin: Option<Beginning>,
    words: StartWords,
) -> Result<Option<(Expr, u64)>, NoMemory>
    requires { IfSome (begun_plan begin) (λ plan. IsFloorplan design.now plan.0 plan.1) }
    ensures begun { let trials = trials_of words.improve (block_count design.now) in
        IfOk result (IsImprovedStarts design.now begin words.seed words.count words.moves trials) }
    ensures floorplan { IfOk result (λ start. IfSome start (λ plan. IsFloorplan design.now plan.0 plan.1)) }
{
    let StartWords {
        count,
        moves,
        seed,
        ..
    } = words;
    let trials = trials_of(words.improve, design.block_count());
    improved_starts(rt, alloc, design, begin, seed, count, moves, trials)
}

/// Lets the design know what was asked for, and begins with the cheapest of what walks find, of a plan that is
/// given, and of what is known then. The walks come first: the area of what they find limits the table of what is known. Paths come last:
/// neither walks nor the table look at them.
pub fn begin<R: Threads + Sync>(
    rt: &R,
    alloc: Global,
    design: Design,
    begin: Option<Beginning>,
    starts: StartWords,
    bounds: BoundsChoice,
) -> Result<Begun, NoMemory>
    requires { IfSome (begun_plan begin) (λ plan. IsFloorplan design plan.0 plan.1) }
    ensures begins { IfOk result (λ begun.
        IsSearchInput (starts_seen starts) bounds design begin begun.design begun.start) }
    ensures floorplan { IfOk result (λ begun.
        IfSome begun.start (λ plan. IsFloorplan begun.design plan.0 plan.1)) }
{
    let walked = find_start(rt, alloc, &design, begin, starts)?;
    let known = know(alloc, bounds, design, &walked)?;
    let start = cheaper(walked, known.plan);
    let design = find_routes(alloc, bounds, known.design)?;
    Ok(Begun { design, start })
}
