//! What the workers of a round leave, gathered.

ghost use Rattle.std.specs.Prelude.{◌≡◌, ◌++◌, ℕ, min, All, IfOk};
ghost use Rattle.sf_model.specs.declared.design.Design.{Design as DesignValue};
ghost use Rattle.sf_worker.specs.Tasks.{IsBest};
ghost use Rattle.sf_rounds.specs.Jobs.{IsDone, Gathers, Adds, as_list};

use crate::job::{Gathering, Job};
use sf_cursor::Stretch;
use sf_frontier::Served;
use sf_incumbent::{Incumbent, Seat};
use sf_model::{Design, MAX};
use sf_polish::Expr;
use sf_worker::WorkerState;
use std::alloc::{AllocError as NoMemory, Global};

/// Takes the workers apart, where none of them ran out of memory, and joins their seats into one.
pub fn gather<T: Served>(
    alloc: Global,
    design: &Design,
    word: &Incumbent,
    seat: &mut Seat,
    jobs: Vec<Job<T>>,
) -> Result<Gathering<T>, NoMemory>
    requires seat { (seat.old.word ≡ word.now.id) × (seat.old.offered ≡ MAX) }
    requires done { All (IsDone design.now word.now) jobs.items }
    ensures { IfOk result
        (λ r. Gathers design.now jobs.items seat.old seat.new r.places.items r.pieces.items
        r.left.items r.best) }
{
    let mut all = Gathering {
        places: Vec::new(alloc),
        pieces: Vec::new(alloc),
        left: Vec::new(alloc),
        best: None,
    };
    for job in jobs {
        add(&mut all, design, word, seat, job)?;
    }
    Ok(all)
}

/// Adds what one worker leaves.
fn add<T: Served>(
    all: &mut Gathering<T>,
    design: &Design,
    word: &Incumbent,
    seat: &mut Seat,
    job: Job<T>,
) -> Result<(), NoMemory>
    requires seat { seat.old.word ≡ word.now.id }
    requires done { IsDone design.now word.now job }
    requires best { IsBest design.now all.old.best seat.old.offered }
    ensures { IfOk result (λ _. Adds design.now job seat.old seat.new all.old all.new) }
{
    let Job { state, end } = job;
    end?;
    let WorkerState {
        number: _,
        first,
        place,
        seat: other,
        mut log,
        best,
        quota: _,
        mut kept,
    } = state;
    all.places.push(place)?;
    all.pieces.append(&mut log)?;
    keep(&mut all.left, first)?;
    all.left.append(&mut kept)?;
    word.join(seat, other);
    all.best = better(all.best.take(), best);
    Ok(())
}

/// Adds the stretch, where there is one.
fn keep(left: &mut Vec<Stretch>, first: Option<Stretch>) -> Result<(), NoMemory>
    ensures { IfOk result (λ _. left.new.items ≡ left.old.items ++ as_list first) }
{
    if let Some(stretch) = first {
        left.push(stretch)?;
    }
    Ok(())
}

/// The cheaper of two plans, where there are two.
fn better(one: Option<(Expr, u64)>, other: Option<(Expr, u64)>) -> Option<(Expr, u64)>
    ensures { (design : DesignValue) (a b : ℕ) → IsBest design one a → IsBest design other b
        → IsBest design result (min a b) }
{
    match (one, other) {
        (None, other) => other,
        (one, None) => one,
        (Some(one), Some(other)) => {
            if other.1 < one.1 {
                Some(other)
            } else {
                Some(one)
            }
        }
    }
}
