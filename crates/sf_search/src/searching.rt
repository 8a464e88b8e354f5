//! The whole search, to its certificate.

ghost use Rattle.std.specs.Prelude.{◌≡◌, ◌≤◌, ◌∷◌, [], ℕ, IfOk};
ghost use Rattle.sf_cursor.specs.declared.stretch.Stretch.{Stretch as StretchValue};
ghost use Rattle.sf_cursor.specs.Stretches.{waits};
ghost use Rattle.sf_node.specs.Subproblem.{root};
ghost use Rattle.sf_search_core.specs.Outcome.{opening};
ghost use Rattle.sf_search.specs.Turns.{turns, TurnsAreAccepted};
ghost use Rattle.sf_search.specs.Found.{IsFound, IsCertOf};
ghost use Rattle.sf_rounds.specs.Legs.{IsLeg};
ghost use Rattle.sf_rounds.specs.Run.{IsBest};

use crate::one_walk::search_walk;
use sf_bound::Bounds;
use sf_certificate::{Cert, TagList, copy_paths};
use sf_cursor::{Cursor, Stretch};
use sf_io::Gate;
use sf_model::{Design, MAX};
use sf_pieces::assemble;
use sf_polish::Expr;
use sf_rounds::{Found, Leg, Opened, SearchOptions, copy_plan, go_on, leave_open, left_of};
use std::alloc::{AllocError as NoMemory, Global};
use std::thread::Threads;

/// Decides subproblems until none is open or `nodes` are decided. One worker walks over the tree in preorder, and
/// of plans that cost the same keeps the first. Two to sixteen go on from the root in rounds.
pub fn search<R: Threads + Sync, B: Bounds, G: Gate>(
    rt: &R,
    alloc: Global,
    design: &Design,
    bounds: &B,
    options: SearchOptions,
    gate: &G,
) -> Result<Found, NoMemory>
    ensures found { let value = B.Values.value bounds.now design.now in
        IfOk result (IsFound design.now value (B.part_value bounds.now design.now) options.nodes) }

    // With one worker it is a function of the design and the budget: the state after so many turns of the
    // core, and in it the plan that was found first of those that cost the word.
    ensures run { let value = B.Values.value bounds.now design.now in
        IfOk result (λ found. options.workers ≡ 1 → IsCertOf design.now
        (turns design.now value options.nodes (opening design.now value 1)) found.cert) }
    ensures accepted { let value = B.Values.value bounds.now design.now in
        IfOk result (λ found. options.workers ≡ 1
        → TurnsAreAccepted design.now value options.nodes (opening design.now value 1)) }
{
    let SearchOptions { workers, nodes } = options;
    if workers >= 2 && workers <= 16 {
        search_below(rt, alloc, design, bounds, None, MAX, options, gate)
    } else {
        alone(alloc, design, bounds, nodes, gate)
    }
}

/// The search by the caller alone.
fn alone<B: Bounds, G: Gate>(
    alloc: Global,
    design: &Design,
    bounds: &B,
    nodes: u64,
    gate: &G,
) -> Result<Found, NoMemory>
    ensures found { let value = B.Values.value bounds.now design.now in
        IfOk result (IsFound design.now value (B.part_value bounds.now design.now) nodes) }
    ensures run { let value = B.Values.value bounds.now design.now in
        IfOk result (λ found. IsCertOf design.now
        (turns design.now value nodes (opening design.now value 1)) found.cert) }
    ensures accepted { let value = B.Values.value bounds.now design.now in
        IfOk result (λ found.
        TurnsAreAccepted design.now value nodes (opening design.now value 1)) }
{
    let mut room = bounds.room(alloc);
    let mut walk = search_walk(alloc, design, bounds, nodes, gate, &mut room)?;
    let cost = walk.word();
    let decided = walk.count() as u64;
    let plan = copy_plan(alloc, walk.best())?;
    let bound = walk.leave_open(design, bounds, &mut room)?;
    let (tags, best) = walk.into_named();
    let blocks = design.block_count();
    let tags = TagList::from_vec(alloc, tags)?;
    let paths = copy_paths(alloc, &design.routes.paths)?;
    let cert = Cert {
        blocks,
        plan: best,
        cost,
        bound,
        paths,
        tags,
    };
    Ok(Found {
        plan,
        cost,
        bound,
        decided,
        cert,
    })
}

/// The search in rounds from the root, also with one worker, where a plan is known that costs `value`, or none
/// and `value` is MAX. No plan is found but one that costs less.
pub fn search_below<R: Threads + Sync, B: Bounds, G: Gate>(
    rt: &R,
    alloc: Global,
    design: &Design,
    bounds: &B,
    best: Option<Expr>,
    value: u64,
    options: SearchOptions,
    gate: &G,
) -> Result<Found, NoMemory>
    requires best { IsBest design.now value best }
    requires workers { (1 ≤ options.workers) × (options.workers ≤ 16) }
    ensures found { IfOk result (IsFound design.now (B.Values.value bounds.now design.now)
        (B.part_value bounds.now design.now) options.nodes) }
    ensures lower { IfOk result (λ found. found.cost ≤ value) }
{
    let cursor = Cursor::new(alloc, design, bounds)?;
    let whole = vec![in alloc; Stretch { cursor, floor: 0 }]?;
    let leg = go_on(rt, alloc, design, bounds, whole, best, value, options, gate)?;
    let found = certified(alloc, design, bounds, options.nodes, leg)?;
    Ok(found)
}

/// What a search of teams from the root hands over.
fn certified<B: Bounds>(
    alloc: Global,
    design: &Design,
    bounds: &B,
    nodes: u64,
    leg: Leg,
) -> Result<Found, NoMemory>
    requires searched { (s : StretchValue) × (value : ℕ) × (waits design.now s ≡ root design.now ∷ [])
        × IsLeg design.now (B.Values.value bounds.now design.now)
        (B.part_value bounds.now design.now) (s ∷ []) value nodes leg }
    ensures found { IfOk result (IsFound design.now (B.Values.value bounds.now design.now)
        (B.part_value bounds.now design.now) nodes) }
    ensures cost { IfOk result (λ found. found.cost ≡ leg.value) }
{
    let Leg {
        left,
        mut pieces,
        best,
        value: cost,
    } = leg;
    let plan = copy_plan(alloc, &best)?;
    let decided = nodes - left_of(&pieces, nodes);
    let Opened {
        pieces: mut open,
        bound,
    } = leave_open(alloc, design, bounds, left, cost)?;
    pieces.append(&mut open)?;
    let cert = assemble(alloc, design, pieces, best, cost, bound)?;
    Ok(Found {
        plan,
        cost,
        bound,
        decided,
        cert,
    })
}
