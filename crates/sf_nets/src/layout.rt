//! What is told of the blocks of one subproblem: extents, items, seats and standings.

use crate::reach::Reach;
use sf_standard::{Extent, Offset};

/// An item on the stack: its least and greatest sides, and how many blocks it has.
#[derive(Clone, Copy)]
pub struct Held {
    pub extent: Extent,
    pub blocks: usize,
}

/// The item in which a block stands, by its place on the stack, and where in it.
#[derive(Clone, Copy)]
pub struct Seat {
    pub item: usize,
    pub offset: Offset,
}

/// The item in which a pin counts, by its place on the stack, and where the pin lies from the item's corner.
#[derive(Clone, Copy)]
pub struct Home {
    pub item: usize,
    pub reach: Reach,
}

/// What the pins of a block are measured by: its lesser side, where it lies anywhere in the outline, and
/// its home if it stands in an item.
#[derive(Clone, Copy)]
pub struct Standing {
    pub side: u64,
    pub range: Reach,
    pub home: Option<Home>,
}

/// Where the blocks of one subproblem stand: the extent of each, the items and the seats on the stack, and
/// the standing of each block by number.
#[derive(Drop)]
pub struct Layout {
    pub extents: Vec<Extent>,
    pub held: Vec<Held>,
    pub seats: Vec<Seat>,
    pub table: Vec<Standing>,
}
