//! What a worker has, and why its pass ends.

use sf_cursor::Stretch;
use sf_frontier::{Place, Served};
use sf_incumbent::Seat;
use sf_pieces::Piece;
use sf_polish::Expr;

/// Why a pass ended.
#[derive(Clone, Copy, Drop)]
pub enum PassEnd {
    QuotaSpent,
    FoundNothing,
}

/// What one worker has. The quota is the number of decisions that are left to it.
#[derive(Drop)]
pub struct WorkerState<T: Served> {
    pub number: usize,
    pub first: Option<Stretch>,
    pub place: Place<T>,
    pub seat: Seat,
    pub log: Vec<Piece>,
    pub best: Option<(Expr, u64)>,
    pub quota: u64,
    pub kept: Vec<Stretch>,
}
