//! Two hard blocks, searched with several budgets, five squares, and two squares with a net.

ghost use Rattle.std.specs.Prelude.{◌≡◌, IfOk};
ghost use Rattle.sf_model.specs.Legal.{block_count};

use sf_bounds::Standard;
use sf_certificate::Tag;
use sf_checker::{Answer, check};
use sf_io::{Gate, OpenGate};
use sf_model::{BlockList, Design, MAX, NetList, PadList, Pin, Shape, Weights};
use sf_node::Part;
use sf_rounds::{Found, SearchOptions};
use sf_search::search;
use sf_test_designs::{SQUARE, WIDE, bare, block, net, pad, two_blocks};
use std::alloc::{AllocError, Global};
use std::sync::atomic::{AtomicU64, Ordering};
use std::thread::Threads;

/// What so many workers find within this budget.
fn searched(
    rt: &(impl Threads + Sync),
    alloc: Global,
    design: &Design,
    workers: u16,
    nodes: u64,
) -> Result<Found, AllocError>
    ensures { IfOk result (λ found. found.cert.blocks ≡ block_count design.now) }
{
    let options = SearchOptions { workers, nodes };
    search(rt, alloc, design, &Standard, options, &OpenGate)
}

/// Cost, bound and count of the decided, of what so many workers find of two hard blocks.
fn found_of_two(
    rt: &(impl Threads + Sync),
    alloc: Global,
    workers: u16,
    nodes: u64,
) -> Result<(u64, u64, u64), AllocError> {
    let design = two_blocks(alloc, WIDE)?;
    let found = searched(rt, alloc, &design, workers, nodes)?;
    Ok((found.cost, found.bound, found.decided))
}

/// The budget, and then cost, bound and count of the decided.
const BUDGETS: [(u64, (u64, u64, u64)); 4] = [
    (0, (MAX, 12, 0)),
    (5, (15, 12, 5)),
    (9, (15, 15, 9)),
    (100, (15, 15, 9)),
];

#[test]
fn searches_two_hard_blocks(rt: HostRuntime) {
    for (nodes, answer) in BUDGETS {
        assert!(rt;
            found_of_two(&rt, rt.alloc(), 1, nodes) == Ok(answer),
            "budget {nodes}"
        );
    }
}

#[test]
fn several_workers_search_two_hard_blocks(rt: HostRuntime) -> Result<(), AllocError> {
    for workers in 2..=16 {
        let (cost, bound, _) = found_of_two(&rt, rt.alloc(), workers, 100)?;
        let (_, _, decided) = found_of_two(&rt, rt.alloc(), workers, 5)?;
        assert!(rt;
            cost == 15 && bound == 15 && decided == 5,
            "{workers} workers"
        );
    }
    Ok(())
}

/// The squares of the sides 1 to 5, area alone.
fn five_squares(alloc: Global) -> Result<Design, AllocError> {
    let blocks = vec![in alloc;
        block(alloc, Shape { w: 1, h: 1 })?,
        block(alloc, SQUARE)?,
        block(alloc, Shape { w: 3, h: 3 })?,
        block(alloc, Shape { w: 4, h: 4 })?,
        block(alloc, Shape { w: 5, h: 5 })?,
    ]?;
    bare(alloc, blocks, WIDE, 0)
}

/// How many subproblems two workers decide of them, and the answer to what they store.
fn decided_of_five(rt: &(impl Threads + Sync), alloc: Global) -> Result<(u64, Answer), AllocError> {
    let design = five_squares(alloc)?;
    let found = searched(rt, alloc, &design, 2, 10_000)?;
    let answer = check(alloc, &design, &Standard, &found.cert)?;
    Ok((found.decided, answer))
}

/// The squares of the sides 1 to 5 fit into no less than an area of 60 (Korf 2003).
#[test]
fn two_workers_prove_an_optimum(rt: HostRuntime) -> Result<(), AllocError> {
    let (decided, answer) = decided_of_five(&rt, rt.alloc())?;
    assert!(rt; decided > 5000, "{decided}");
    assert!(rt; answer == Answer::Yes(60, 60, decided));
    Ok(())
}

/// Two squares, a pad where the middle of the first one lies when it stands on the right, and a net of both.
fn squares_and_pad(alloc: Global) -> Result<Design, AllocError> {
    let blocks = vec![in alloc; block(alloc, SQUARE)?, block(alloc, SQUARE)?]?;
    let pad = pad(alloc, 3, 1)?;
    let net = net(alloc, Pin::Block(0), Pin::Pad(0), 1)?;
    Design::new(
        alloc,
        BlockList::from_vec(blocks),
        PadList::from_vec(vec![in alloc; pad]?),
        NetList::from_vec(vec![in alloc; net]?),
        WIDE,
        Weights { area: 1, wire: 1 },
    )
}

/// The tags of their search.
const TAGS: [Tag; 9] = [
    Tag::Extend,
    Tag::Extend,
    Tag::Extend,
    Tag::Closed(Part::Area),
    Tag::Closed(Part::Area),
    Tag::Extend,
    Tag::Extend,
    Tag::Closed(Part::Area),
    Tag::Closed(Part::Area),
];

/// Whether one worker finds the cost and the bound 8, by these tags.
fn has_tags(rt: &(impl Threads + Sync), alloc: Global) -> Result<bool, AllocError> {
    let design = squares_and_pad(alloc)?;
    let Found {
        cost,
        bound,
        decided,
        cert,
        ..
    } = searched(rt, alloc, &design, 1, 100)?;
    let tags = cert.tags.into_vec(alloc)?;
    Ok((cost, bound, decided) == (8, 8, 9) && tags.as_slice() == TAGS.as_slice())
}

/// The first plan costs 8 for its area and 4 for the net, so no area closes its subproblem yet. A later plan
/// costs 8.
#[test]
fn names_are_those_of_the_last_cost(rt: HostRuntime) {
    assert!(rt; has_tags(&rt, rt.alloc()) == Ok(true));
}

/// What a gate heard of one worker: its decisions in all, those in the round that is on, and the rounds.
#[derive(Drop)]
struct Heard {
    decisions: AtomicU64,
    in_round: AtomicU64,
    rounds: AtomicU64,
}

/// What a gate has heard before any decision.
fn nothing_heard() -> Heard {
    Heard {
        decisions: AtomicU64::new(0),
        in_round: AtomicU64::new(0),
        rounds: AtomicU64::new(0),
    }
}

/// Counts the decisions of two workers, and those whose step is neither the first of a round nor the count of
/// the same worker's decisions before in this round.
#[derive(Drop)]
struct Counting {
    first: Heard,
    second: Heard,
    miscounted: AtomicU64,
}

/// A gate that has counted nothing yet.
fn nothing_counted() -> Counting {
    Counting {
        first: nothing_heard(),
        second: nothing_heard(),
        miscounted: AtomicU64::new(0),
    }
}

impl Counting {
    /// How many decisions the gate was told of.
    fn told(&self) -> u64 {
        let first = self.first.decisions.load(Ordering::SeqCst);
        first.wrapping_add(self.second.decisions.load(Ordering::SeqCst))
    }
}

impl Gate for Counting {
    fn at(&self, worker: usize, step: u64) {
        let heard = if worker == 0 {
            &self.first
        } else {
            &self.second
        };
        heard.decisions.fetch_add(1, Ordering::SeqCst);
        if step == 0 {
            heard.rounds.fetch_add(1, Ordering::SeqCst);
        } else if heard.in_round.load(Ordering::SeqCst) != step {
            self.miscounted.fetch_add(1, Ordering::SeqCst);
        }
        heard.in_round.store(step.wrapping_add(1), Ordering::SeqCst);
    }
}

/// What a search counted, and what its gate heard of it: the decisions, those that it heard of, the steps that were
/// miscounted, and the rounds of either worker.
type Counts = (u64, u64, u64, (u64, u64));

/// What is counted where so many workers search a design through.
fn counted(
    rt: &(impl Threads + Sync),
    alloc: Global,
    design: &Design,
    workers: u16,
) -> Result<Counts, AllocError> {
    let gate = nothing_counted();
    let options = SearchOptions {
        workers,
        nodes: 10_000,
    };
    let found = search(rt, alloc, design, &Standard, options, &gate)?;
    let first = gate.first.rounds.load(Ordering::SeqCst);
    let second = gate.second.rounds.load(Ordering::SeqCst);
    let miscounted = gate.miscounted.load(Ordering::SeqCst);
    Ok((found.decided, gate.told(), miscounted, (first, second)))
}

/// The same of two hard blocks.
fn counted_of_two(
    rt: &(impl Threads + Sync),
    alloc: Global,
    workers: u16,
) -> Result<Counts, AllocError> {
    let design = two_blocks(alloc, WIDE)?;
    counted(rt, alloc, &design, workers)
}

/// A worker alone decides all in one round. Two workers decide all but the root in one, before which the caller
/// decides the root, of which no gate hears.
#[test]
fn the_gate_is_told_the_count_of_decisions_before(rt: HostRuntime) -> Result<(), AllocError> {
    for (workers, without_gate, rounds) in [(1, 0, (1, 0)), (2, 1, (1, 1))] {
        let (decided, told, miscounted, found) = counted_of_two(&rt, rt.alloc(), workers)?;
        assert!(rt;
            told.wrapping_add(without_gate) == decided && miscounted == 0 && found == rounds,
            "{workers} workers"
        );
    }
    Ok(())
}

/// The same of five squares.
fn counted_of_five(
    rt: &(impl Threads + Sync),
    alloc: Global,
    workers: u16,
) -> Result<Counts, AllocError> {
    let design = five_squares(alloc)?;
    counted(rt, alloc, &design, workers)
}

/// Two workers take several rounds. The caller decides the root, and later one subproblem at a time where what is left
/// can't be cut in two; the first worker decides one at least in each round. A worker alone counts through.
#[test]
fn each_round_counts_its_decisions_anew(rt: HostRuntime) -> Result<(), AllocError> {
    let (decided, told, miscounted, (rounds, _)) = counted_of_five(&rt, rt.alloc(), 1)?;
    assert!(rt;
        told == decided && miscounted == 0 && rounds == 1,
        "{rounds} rounds"
    );
    let (decided, told, miscounted, (rounds, _)) = counted_of_five(&rt, rt.alloc(), 2)?;
    assert!(rt;
        told < decided && miscounted == 0 && rounds > 1,
        "{rounds} rounds"
    );
    Ok(())
}
