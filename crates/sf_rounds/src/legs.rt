//! The search of teams: it goes on from stretches until none is left or the budget is spent.

ghost use Rattle.std.specs.Prelude.{◌≡◌, ◌<◌, ◌≤◌, ◌+◌, [], All, length, sum, slice_index_or, IfOk, OnOk};
ghost use Rattle.sf_cursor.specs.Stretches.{IsStretch};
ghost use Rattle.sf_rounds.specs.Run.{IsBest};
ghost use Rattle.sf_rounds.specs.Legs.{IsAbsorbed, IsLeg, IsStep, tags_in};

use crate::job::RoundOut;
use crate::parting::parts_of;
use crate::rounds::round;
use sf_bound::Bounds;
use sf_cursor::Stretch;
use sf_io::{Gate, OpenGate};
use sf_model::Design;
use sf_pieces::Piece;
use sf_polish::Expr;
use std::alloc::{AllocError as NoMemory, Global};
use std::mem;
use std::thread::Threads;

/// The largest quota of a worker in a round, for one block. Of more blocks it is so much less, so that rounds take
/// about as long.
const MOST: u64 = 67_108_864;

/// How many workers are asked for, and how many subproblems may be decided.
#[derive(Clone, Copy)]
pub struct SearchOptions {
    pub workers: u16,
    pub nodes: u64,
}

/// What a team leaves: the stretches that are left open, the pieces of what it decided, and the best plan with
/// its cost.
#[derive(Drop)]
pub struct Leg {
    pub left: Vec<Stretch>,
    pub pieces: Vec<Piece>,
    pub best: Option<Expr>,
    pub value: u64,
}

/// Decides what the stretches lead to, until nothing is left or `nodes` subproblems are decided. Where there are
/// fewer stretches than workers the caller decides one subproblem, and else all workers decide in a round.
pub fn go_on<R: Threads + Sync, B: Bounds, G: Gate>(
    rt: &R,
    alloc: Global,
    design: &Design,
    bounds: &B,
    stretches: Vec<Stretch>,
    best: Option<Expr>,
    value: u64,
    options: SearchOptions,
    gate: &G,
) -> Result<Leg, NoMemory>
    requires stretches { All (IsStretch design.now (B.Values.value bounds.now design.now)) stretches.items }
    requires best { IsBest design.now value best }
    requires workers { (1 ≤ options.workers) × (options.workers ≤ 16) }
    ensures { IfOk result (IsLeg design.now (B.Values.value bounds.now design.now)
        (B.part_value bounds.now design.now) stretches.items value options.nodes) }
{
    let SearchOptions { workers, nodes } = options;
    let mut leg = Leg {
        left: stretches,
        pieces: Vec::new(alloc),
        best,
        value,
    };
    let mut budget = nodes;
    while budget > 0 {
        if leg.left.is_empty() {
            break;
        }
        let decided = nodes - budget;
        let left = mem::replace(&mut leg.left, Vec::new(alloc));
        let parts = parts_of(alloc, design, bounds, left, usize::from(workers))?;
        let out = step(
            rt, alloc, design, bounds, parts, leg.value, workers, decided, budget, gate,
        )?;
        budget = left_of(&out.pieces, budget);
        absorb(&mut leg, out)?;
    }
    Ok(leg)
}

/// One subproblem in the caller, which no gate hears of, where there are fewer stretches than workers, and else a
/// round of all workers.
fn step<R: Threads + Sync, B: Bounds, G: Gate>(
    rt: &R,
    alloc: Global,
    design: &Design,
    bounds: &B,
    stretches: Vec<Stretch>,
    value: u64,
    workers: u16,
    decided: u64,
    budget: u64,
    gate: &G,
) -> Result<RoundOut, NoMemory>
    requires stretches { All (IsStretch design.now (B.Values.value bounds.now design.now)) stretches.items }
    requires workers { (1 ≤ workers) × (workers ≤ 16) }
    requires budget { 0 < budget }
    ensures { IfOk result (IsStep design.now (B.Values.value bounds.now design.now)
        (B.part_value bounds.now design.now) stretches.items value budget) }
{
    if stretches.len() < usize::from(workers) {
        let out = round(rt, alloc, design, bounds, stretches, &[1], value, &OpenGate)?;
        return Ok(out);
    }
    let quotas = quotas_of(alloc, budget, longest(decided, design), workers)?;
    let out = round(rt, alloc, design, bounds, stretches, &quotas, value, gate)?;
    Ok(out)
}

/// The largest quota of a worker in the next round, after so many decisions. The first round is short, so that the
/// workers stay near where one alone would be: a chain that comes to a plan has a decision for each token. Later ones
/// are long, and there are few of them, since threads that are started anew share a processor for some hundredths of
/// a second before the system spreads them over all.
fn longest(decided: u64, design: &Design) -> u64
    ensures { 0 < result }
{
    let blocks = u64::from(design.block_count()).max(1);
    let chain = blocks.saturating_mul(2);
    let most = if decided < chain {
        chain
    } else {
        MOST / blocks
    };
    most.max(1)
}

/// The decisions that are left, shared out evenly, and at most so many for each worker.
fn quotas_of(alloc: Global, left: u64, most: u64, workers: u16) -> Result<Vec<u64>, NoMemory>
    requires some { (0 < left) × (0 < most) × (0 < workers) }
    ensures count { IfOk result (λ quotas. length quotas.items ≡ workers) }
    ensures few { IfOk result (λ quotas. sum quotas.items ≤ left) }
    ensures first { IfOk result (λ quotas. 1 ≤ slice_index_or quotas.items 0 0) }
{
    let mut quotas = Vec::new(alloc);
    let mut left = left;
    for worker in 0..workers {
        let quota = left.div_ceil(u64::from(workers - worker)).min(most);
        quotas.push(quota)?;
        left -= quota;
    }
    Ok(quotas)
}

/// What is left of a budget once each subproblem that the pieces tell has taken one of it.
pub fn left_of(pieces: &[Piece], budget: u64) -> u64
    requires few { tags_in pieces.now ≤ budget }
    ensures left { result + tags_in pieces.now ≡ budget }
{
    let mut left = budget;
    for piece in pieces {
        left -= piece.tags.len() as u64;
    }
    left
}

/// Adds what a round leaves.
fn absorb(leg: &mut Leg, out: RoundOut) -> Result<(), NoMemory>
    ensures { OnOk result (IsAbsorbed out leg.old leg.new) }
{
    let RoundOut {
        left,
        mut pieces,
        value,
        best,
    } = out;
    leg.left = left;
    leg.pieces.append(&mut pieces)?;
    leg.value = value;
    if best.is_some() {
        leg.best = best;
    }
    Ok(())
}
