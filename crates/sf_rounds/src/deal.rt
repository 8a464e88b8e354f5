//! How the stretches of a round are dealt out among its workers.

ghost use Rattle.std.specs.Prelude.{◌≡◌, ◌+◌, ◌-◌, ◌<◌, All, IfOk, length, reverse, drop};
ghost use Rattle.sf_cursor.specs.Stretches.{IsStretch};
ghost use Rattle.sf_worker.specs.Took.{Serves};
ghost use Rattle.sf_frontier.specs.Team.{IsTeam, IsNewPlace};
ghost use Rattle.sf_rounds.specs.Jobs.{Dealt, IsSeated, with_put, Handed};

use crate::job::{Job, RoundWork};
use sf_bound::Bounds;
use sf_cursor::Stretch;
use sf_frontier::{Place, Served};
use sf_incumbent::{Incumbent, Seat};
use sf_model::Design;
use sf_worker::{PassEnd, WorkerState};
use std::alloc::{AllocError as NoMemory, Global};

/// Stretch i goes to worker i modulo their number: the first of each stands apart, and the others are put into
/// its deque.
pub fn deal<T: Served, B: Bounds>(
    alloc: Global,
    design: &Design,
    bounds: &B,
    word: &Incumbent,
    seat: &mut Seat,
    places: Vec<Place<T>>,
    work: RoundWork<'_>,
) -> Result<Vec<Job<T>>, NoMemory>
    requires team { Serves T.serves design.now (B.Values.value bounds.now design.now) }
    requires deques { IsTeam places.items × (length places.items ≡ length work.quotas.now) }
    requires new { All IsNewPlace places.items }
    requires seat { (seat.old.word ≡ word.now.id) × (seat.old.parts ≡ length work.quotas.now + 1) }
    requires stretches { All (IsStretch design.now (B.Values.value bounds.now design.now)) work.stretches.items }
    ensures dealt { IfOk result
        (λ jobs. Dealt design.now (B.Values.value bounds.now design.now) seat.old.seen word.now
        work.entry.stretches.items work.entry.quotas.now jobs.items) }
    ensures seat { IfOk result (λ _. seat.new ≡ record seat.old { parts = 1 }) }
{
    let RoundWork {
        mut stretches,
        quotas,
    } = work;
    stretches.reverse();
    let mut jobs = seated(alloc, word, seat, places, &mut stretches, quotas)?;
    stretches.reverse();
    hand_out(design, bounds, &mut jobs, stretches)?;
    Ok(jobs)
}

/// The workers in their places, each with its first stretch and a seat of the word. The stretches stand in
/// reverse.
fn seated<T: Served>(
    alloc: Global,
    word: &Incumbent,
    seat: &mut Seat,
    places: Vec<Place<T>>,
    stretches: &mut Vec<Stretch>,
    quotas: &[u64],
) -> Result<Vec<Job<T>>, NoMemory>
    requires quotas { length places.items ≡ length quotas.now }
    requires seat { (seat.old.word ≡ word.now.id) × (seat.old.parts ≡ length quotas.now + 1) }
    ensures seated { IfOk result
        (λ jobs. IsSeated seat.old.seen word.now
        (reverse stretches.old.items) quotas.now places.items jobs.items) }
    ensures left { IfOk result
        (λ _. reverse stretches.new.items ≡ drop (length quotas.now) (reverse stretches.old.items)) }
    ensures seat { IfOk result (λ _. seat.new ≡ record seat.old { parts = 1 }) }
{
    let mut jobs = Vec::new(alloc);
    let mut number = 0;
    for place in places {
        let state = WorkerState {
            number,
            first: stretches.pop(),
            place,
            seat: word.split(seat),
            log: Vec::new(alloc),
            best: None,
            quota: quotas[number],
            kept: Vec::new(alloc),
        };
        let end = Ok(PassEnd::FoundNothing);
        jobs.push(Job { state, end })?;
        number += 1;
    }
    Ok(jobs)
}

/// Puts the stretches into the deques of the workers, stretch i into that of worker i modulo their number. The
/// last one is put first, so that an owner takes the first of its stretches first.
fn hand_out<T: Served, B: Bounds>(
    design: &Design,
    bounds: &B,
    jobs: &mut Vec<Job<T>>,
    mut stretches: Vec<Stretch>,
) -> Result<(), NoMemory>
    requires team { Serves T.serves design.now (B.Values.value bounds.now design.now) }
    requires some { 0 < length jobs.old.items }
    requires stretches { All (IsStretch design.now (B.Values.value bounds.now design.now)) stretches.items }
    ensures { IfOk result (λ _. Handed design.now jobs.old.items jobs.new.items stretches.items) }
{
    while let Some(stretch) = stretches.pop() {
        let place = stretches.len() % jobs.len();
        put(design, bounds, &mut jobs[place], stretch)?;
    }
    Ok(())
}

/// Puts a stretch into the worker's deque.
fn put<T: Served, B: Bounds>(
    design: &Design,
    bounds: &B,
    job: &mut Job<T>,
    stretch: Stretch,
) -> Result<(), NoMemory>
    requires team { Serves T.serves design.now (B.Values.value bounds.now design.now) }
    requires stretch { IsStretch design.now (B.Values.value bounds.now design.now) stretch }
    ensures { IfOk result (λ _. job.new ≡ with_put job.old stretch) }
{
    match job.state.place.owner.put(stretch) {
        Ok(()) => Ok(()),
        Err(_) => Err(NoMemory),
    }
}
