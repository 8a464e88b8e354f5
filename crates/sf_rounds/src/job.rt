//! The work of a round, what each of its workers has, and what the round leaves.

use sf_budget::Account;
use sf_cursor::Stretch;
use sf_frontier::{Place, Served};
use sf_pieces::Piece;
use sf_polish::Expr;
use sf_worker::{PassEnd, WorkerState};
use std::alloc::AllocError as NoMemory;

/// The work of a round: the stretches, and a quota of decisions for each worker.
#[derive(Drop)]
pub struct RoundWork<'a> {
    pub stretches: Vec<Stretch>,
    pub quotas: &'a [u64],
}

/// One worker, and how its last pass ended.
#[derive(Drop)]
pub struct Job<T: Served> {
    pub state: WorkerState<T>,
    pub end: Result<PassEnd, NoMemory>,
}

/// One worker, and its account of the round's budget.
#[derive(Drop)]
pub struct Member<T: Served> {
    pub job: Job<T>,
    pub account: Account,
}

/// What the workers leave. The stretches that stand in deques are still there.
#[derive(Drop)]
pub struct Gathering<T: Served> {
    pub places: Vec<Place<T>>,
    pub pieces: Vec<Piece>,
    pub left: Vec<Stretch>,
    pub best: Option<(Expr, u64)>,
}

/// What a round leaves: the stretches that are left open, the pieces of what was decided, the least cost, and a
/// plan that costs it, where the cost fell.
#[derive(Drop)]
pub struct RoundOut {
    pub left: Vec<Stretch>,
    pub pieces: Vec<Piece>,
    pub value: u64,
    pub best: Option<Expr>,
}
