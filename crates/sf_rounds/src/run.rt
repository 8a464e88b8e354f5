//! The workers of a round at work, each in a thread of its own.

ghost use Rattle.std.specs.Prelude.{◌≡◌, ◌+◌, All, MatchOption};
ghost use Rattle.sf_worker.specs.Took.{IsReady, Serves};
ghost use Rattle.sf_rounds.specs.Jobs.{CanStart, EachTwo, IsRefilled, Ran, Worked};

use crate::job::{Job, Member};
use sf_bound::Bounds;
use sf_budget::{Account, Budget};
use sf_frontier::Served;
use sf_incumbent::Incumbent;
use sf_io::Gate;
use sf_model::Design;
use sf_worker::{WorkerState, pass};
use std::thread;
use std::thread::Threads;

/// A draw takes one part of what is left, in so many for each worker.
const DRAW_PARTS: u64 = 4;

/// How often a worker draws in a round at most. A round's budget is drawn long before.
const DRAWS: u32 = 65_536;

/// A gate that is told of the decisions of earlier passes in the round, too.
#[derive(Drop)]
struct CountedGate<'a, G: Gate> {
    gate: &'a G,
    earlier: u64,
}

impl<G: Gate> Gate for CountedGate<'_, G> {
    fn at(&self, worker: usize, step: u64) {
        self.gate.at(worker, self.earlier.saturating_add(step));
    }
}

/// Runs all workers at once, and gives them back.
pub fn run_all<R: Threads + Sync, T: Served + Sync, B: Bounds, G: Gate>(
    rt: &R,
    mut members: Vec<Member<T>>,
    design: &Design,
    bounds: &B,
    word: &Incumbent,
    budget: &Budget,
    gate: &G,
) -> Vec<Member<T>>
    requires team { Serves T.serves design.now (B.Values.value bounds.now design.now) }
    requires ready { All
        (CanStart design.now (B.Values.value bounds.now design.now) word.now budget.now) members.items }
    ensures { EachTwo (Worked design.now (B.Values.value bounds.now design.now)
        (B.part_value bounds.now design.now)) members.items result.items }
{
    let threads = members.len();
    if threads == 0 {
        return members;
    }
    let parts = DRAW_PARTS * threads as u64;
    thread::for_each_mut(
        rt,
        members.as_mut_slice(),
        threads,
        &|_, member: &mut Member<T>|
            requires { Serves T.serves design.now (B.Values.value bounds.now design.now)
                × CanStart design.now (B.Values.value bounds.now design.now) word.now budget.now member.now }
            ensures { Worked design.entry.now (B.Values.value bounds.entry.now design.entry.now)
                (B.part_value bounds.entry.now design.entry.now) member.entry.now member.exit.now }
        {
            work(member, design, bounds, word, budget, gate, parts);
        },
    );
    members
}

/// Passes over stretches until the quota is spent and nothing can be drawn, no stretch is found, or memory runs out.
fn work<T: Served, B: Bounds, G: Gate>(
    member: &mut Member<T>,
    design: &Design,
    bounds: &B,
    word: &Incumbent,
    budget: &Budget,
    gate: &G,
    parts: u64,
)
    requires team { Serves T.serves design.now (B.Values.value bounds.now design.now) }
    requires ready { CanStart design.now (B.Values.value bounds.now design.now) word.now budget.now
        member.old }
    ensures { Worked design.now (B.Values.value bounds.now design.now)
        (B.part_value bounds.now design.now) member.old member.new }
{
    let mut earlier = member.job.state.quota;
    let first = CountedGate { gate, earlier: 0 };
    pass_once(&mut member.job, design, bounds, word, &first);
    for _ in 0..DRAWS {
        if member.job.end.is_err() {
            break;
        }
        let Some(drawn) = refill(&mut member.job.state, &mut member.account, budget, parts) else {
            break;
        };
        let later = CountedGate { gate, earlier };
        pass_once(&mut member.job, design, bounds, word, &later);
        earlier = earlier.saturating_add(drawn);
    }
}

/// One pass.
fn pass_once<T: Served, B: Bounds, G: Gate>(
    job: &mut Job<T>,
    design: &Design,
    bounds: &B,
    word: &Incumbent,
    gate: &G,
)
    requires team { Serves T.serves design.now (B.Values.value bounds.now design.now) }
    requires word { job.old.state.seat.word ≡ word.now.id }
    requires ready { IsReady design.now (B.Values.value bounds.now design.now) job.old.state }
    ensures { Ran design.now (B.Values.value bounds.now design.now) (B.part_value bounds.now design.now)
        job.old job.new }
{
    job.end = pass(&mut job.state, design, bounds, word, gate);
}

/// Draws a quota for a worker that has spent its own, which takes up the stretch that it kept last. The answer is how
/// much was drawn, if anything was.
fn refill<T: Served>(
    state: &mut WorkerState<T>,
    account: &mut Account,
    budget: &Budget,
    parts: u64,
) -> Option<u64>
    requires { account.old.budget ≡ budget.now.id }
    ensures { MatchOption result ((state.new ≡ state.old) × (account.new ≡ account.old))
        (λ drawn. (account.new ≡ record account.old { drawn = account.old.drawn + drawn })
        × IsRefilled state.old state.new drawn) }
{
    if state.quota > 0 || state.first.is_some() {
        return None;
    }
    let drawn = budget.draw(account, parts);
    if drawn == 0 {
        return None;
    }
    state.first = state.kept.pop();
    state.quota = drawn;
    Some(drawn)
}
