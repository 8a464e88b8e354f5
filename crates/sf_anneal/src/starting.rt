//! Several walks in threads.

ghost use Rattle.std.specs.Prelude.{◌≡◌, ◌≤◌, IfOk, IfSome};
ghost use Rattle.sf_anneal.specs.Measured.{IsFloorplan};
ghost use Rattle.sf_anneal.specs.Starts.{begun_plan, first_least, IsImproved, IsImprovedStarts};
ghost use Rattle.sf_anneal.specs.Starts.{IsOwnWalk, IsStart, IsStarts};

use crate::beginning::Beginning;
use crate::improving::{improve, improvement, lesser};
use crate::walking::{chain, one_start};
use rand_pcg::Lcg64Xsh32;
use rayon::prelude::*;
use sf_model::Design;
use sf_polish::Expr;
use std::alloc::{AllocError as NoMemory, Global};
use std::thread::Threads;

/// The walk of this number, over words of its own.
fn numbered(
    alloc: Global,
    design: &Design,
    seed: u64,
    number: usize,
    moves: u32,
) -> Result<Option<(Expr, u64)>, NoMemory>
    ensures { IfOk result (IsOwnWalk design.now seed moves number) }
{
    let mut words = Lcg64Xsh32::new(seed.wrapping_add(number as u64), 2);
    one_start(alloc, design, &mut words, moves)
}

/// The same, made better by so many trials over words of its own, from the chain of all blocks on.
fn numbered_improved(
    alloc: Global,
    design: &Design,
    seed: u64,
    number: usize,
    moves: u32,
    trials: u32,
) -> Result<Option<(Expr, u64)>, NoMemory>
    ensures { IfOk result (IsImproved design.now seed moves trials number) }
{
    let found = numbered(alloc, design, seed, number, moves)?;
    let tokens = chain(alloc, design.block_count())?;
    let seed = seed.wrapping_add(number as u64);
    improve(alloc, design, &tokens, found, seed, trials)
}

/// The result of least cost, of these the first.
pub fn first_least(results: Vec<Option<(Expr, u64)>>) -> Option<(Expr, u64)>
    ensures { result ≡ first_least results.items }
{
    let mut best: Option<(Expr, u64)> = None;
    for found in results {
        best = lesser(best, found);
    }
    best
}

/// So many walks in as many threads as there are processors, walk `i` over the words of the seed
/// `seed + i`. The answer is that of one thread: of the results of least cost the first.
pub fn starts<R: Threads + Sync>(
    rt: &R,
    alloc: Global,
    design: &Design,
    seed: u64,
    count: u16,
    moves: u32,
) -> Result<Option<(Expr, u64)>, NoMemory>
    ensures starts { IfOk result (IsStarts design.now seed count moves) }
    ensures floorplan { IfOk result (λ found. IfSome found (λ pair. IsFloorplan design.now pair.0 pair.1)) }
{
    let results: Result<Vec<Option<(Expr, u64)>>, NoMemory> = (0..usize::from(count))
        .into_par_iter()
        .with_min_len(1)
        .map(
            |number: usize| -> Result<Option<(Expr, u64)>, NoMemory>
                ensures { IfOk result (IsOwnWalk design.entry.now seed moves number) }
            { numbered(alloc, design, seed, number, moves) },
        )
        .collect(rt, alloc)?;
    Ok(first_least(results?))
}

/// What the start of this number comes to: a walk, made better, where it is one of so many, and else what trials
/// come to from the tokens on that are begun with.
fn numbered_start(
    alloc: Global,
    design: &Design,
    begin: &Option<Beginning>,
    seed: u64,
    count: u16,
    moves: u32,
    trials: u32,
    number: usize,
) -> Result<Option<(Expr, u64)>, NoMemory>
    ensures { IfOk result (IsStart design.now seed count moves trials number) }
{
    if number < usize::from(count) {
        return numbered_improved(alloc, design, seed, number, moves, trials);
    }
    match begin {
        Some(begin) => {
            let seed = seed.wrapping_add(number as u64);
            improvement(alloc, design, begin.tokens.as_slice(), seed, trials)
        }
        None => Ok(None),
    }
}

/// The plan that was begun with.
fn begun_plan(begin: Option<Beginning>) -> Option<(Expr, u64)>
    ensures { result ≡ begun_plan begin }
{
    match begin {
        Some(begin) => begin.plan,
        None => None,
    }
}

/// How many more starts there are.
fn begun_count(begin: &Option<Beginning>) -> usize
    ensures few { result ≤ 1 }
    ensures none { begin.now ≡ None → result ≡ 0 }
{
    match begin {
        Some(_) => 1,
        None => 0,
    }
}

/// The same, where what each walk finds is made better by so many trials, in the walk's own thread. A beginning
/// is one more start behind the walks: its plan is made better by so many trials from its tokens on, over the
/// words of the number behind the last walk's.
pub fn improved_starts<R: Threads + Sync>(
    rt: &R,
    alloc: Global,
    design: &Design,
    begin: Option<Beginning>,
    seed: u64,
    count: u16,
    moves: u32,
    trials: u32,
) -> Result<Option<(Expr, u64)>, NoMemory>
    requires { IfSome (begun_plan begin) (λ pair. IsFloorplan design.now pair.0 pair.1) }
    ensures starts { IfOk result (IsImprovedStarts design.now begin seed count moves trials) }
    ensures floorplan { IfOk result (λ found. IfSome found (λ pair. IsFloorplan design.now pair.0 pair.1)) }
{
    let all = usize::from(count) + begun_count(&begin);
    let begun = &begin;
    let results: Result<Vec<Option<(Expr, u64)>>, NoMemory> = (0..all)
        .into_par_iter()
        .with_min_len(1)
        .map(
            |number: usize| -> Result<Option<(Expr, u64)>, NoMemory>
                ensures { IfOk result (IsStart design.entry.now seed count moves trials number) }
            { numbered_start(alloc, design, begun, seed, count, moves, trials, number) },
        )
        .collect(rt, alloc)?;
    let least = first_least(results?);
    Ok(lesser(least, begun_plan(begin)))
}
