//! Walks that are not at their end.

use crate::cursor::Cursor;
use sf_model::Items;

/// A walk that is not at its end: where it stands, and how many steps of the way are not its own. It stands for
/// the subproblem that is next and for what waits behind it beyond those steps.
#[derive(Drop)]
pub struct Stretch {
    pub cursor: Cursor,
    pub floor: usize,
}

/// A list of stretches.
pub type Stretches = Items<Stretch>;
