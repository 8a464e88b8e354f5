//! A round: several workers decide what the stretches handed to it lead to.

ghost use Rattle.std.specs.Prelude.{◌≡◌, ◌≤◌, All, IfOk, MatchOption, Some, None, length};
ghost use Rattle.sf_cursor.specs.Stretches.{IsStretch};
ghost use Rattle.sf_worker.specs.Took.{Serves};
ghost use Rattle.sf_rounds.specs.Rounds.{IsRound};

use crate::deal::deal;
use crate::gather::gather;
use crate::job::{Gathering, RoundOut, RoundWork};
use crate::pooling::{first_quotas, run_pooled};
use sf_bound::Bounds;
use sf_cursor::Stretch;
use sf_frontier::{Finish, Served, finish, team};
use sf_incumbent::Incumbent;
use sf_io::Gate;
use sf_model::Design;
use sf_polish::Expr;
use std::alloc::{AllocError as NoMemory, Global};
use std::marker::Brand;
use std::thread::Threads;

/// One worker for each quota walks over the stretches, each in a thread of its own, or one after another where
/// none can be made. A worker that has spent what it began with draws from what is left of all quotas, so that one
/// may decide more than its own. What is left of the stretches comes back.
pub fn round<R: Threads + Sync, B: Bounds, G: Gate>(
    rt: &R,
    alloc: Global,
    design: &Design,
    bounds: &B,
    stretches: Vec<Stretch>,
    quotas: &[u64],
    value: u64,
    gate: &G,
) -> Result<RoundOut, NoMemory>
    requires workers { (1 ≤ length quotas.now) × (length quotas.now ≤ 16) }
    requires stretches { All (IsStretch design.now (B.Values.value bounds.now design.now)) stretches.items }
    ensures { IfOk result
        (λ r. IsRound design.now (B.Values.value bounds.now design.now)
        (B.part_value bounds.now design.now) stretches.items quotas.now value r) }
{
    let work = RoundWork { stretches, quotas };
    round_as::<R, Brand, B, G>(rt, alloc, design, bounds, work, value, gate)
}

/// The same for one kind of team.
fn round_as<R: Threads + Sync, T: Served + Sync, B: Bounds, G: Gate>(
    rt: &R,
    alloc: Global,
    design: &Design,
    bounds: &B,
    work: RoundWork<'_>,
    value: u64,
    gate: &G,
) -> Result<RoundOut, NoMemory>
    requires team { Serves T.serves design.now (B.Values.value bounds.now design.now) }
    requires workers { (1 ≤ length work.quotas.now) × (length work.quotas.now ≤ 16) }
    requires stretches { All (IsStretch design.now (B.Values.value bounds.now design.now)) work.stretches.items }
    ensures { IfOk result
        (λ r. IsRound design.now (B.Values.value bounds.now design.now)
        (B.part_value bounds.now design.now) work.entry.stretches.items work.entry.quotas.now value r) }
{
    let RoundWork { stretches, quotas } = work;
    let workers = quotas.len() as u16;
    let (first, rest) = first_quotas(alloc, quotas)?;
    let places = team::<T>(alloc, workers)?;
    let (word, mut seat) = Incumbent::new(alloc, value, workers + 1)?;
    let begun = RoundWork {
        stretches,
        quotas: &first,
    };
    let jobs = deal(alloc, design, bounds, &word, &mut seat, places, begun)?;
    let jobs = run_pooled(rt, alloc, jobs, rest, design, bounds, &word, gate)?;
    let Gathering {
        places,
        pieces,
        left: mut kept,
        best,
    } = gather(alloc, design, &word, &mut seat, jobs)?;
    let Finish { left } = finish(alloc, places)?;
    let mut left = left.into_vec();
    left.append(&mut kept)?;
    Ok(RoundOut {
        left,
        pieces,
        value: word.finish(seat),
        best: plan_of(best),
    })
}

/// The plan without its cost.
fn plan_of(best: Option<(Expr, u64)>) -> Option<Expr>
    ensures { MatchOption best (result ≡ None) (λ plan. result ≡ Some plan.0) }
{
    match best {
        Some((expr, _)) => Some(expr),
        None => None,
    }
}
