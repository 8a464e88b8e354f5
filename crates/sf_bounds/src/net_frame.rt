//! What is kept of the nets along a path.

use sf_curves::Direction;
use sf_nets::Reach;
use sf_polish::Token;
use sf_standard::Extent;

/// What is kept of one net that counts: what its blocks in an item share, the greatest of its range, its
/// pair and its gaps in the items so far, and the greatest of the gaps alone.
#[derive(Clone, Copy)]
pub struct Cell {
    pub reach: Reach,
    pub part: u32,
    pub hull: u32,
}

/// A block as an item by itself: its sides, and where its row begins, a cell for each net that counts.
#[derive(Clone, Copy)]
pub struct BlockRow {
    pub extent: Extent,
    pub row: usize,
}

/// What the wires of the nets take at least: where the parts of the nets begin, their sum, each as often as
/// its net's weight says, and the same sum of the gaps alone.
#[derive(Clone, Copy)]
pub struct Wires {
    pub at: usize,
    pub sum: u64,
    pub hull: u64,
}

/// What one token makes: the sides of its item, where the item's row begins, how many tokens made the items
/// under it, the wires after it, and how many cells there were after it.
#[derive(Clone, Copy)]
pub struct NetFrame {
    pub token: Token,
    pub extent: Extent,
    pub below: usize,
    pub row: usize,
    pub wires: Wires,
    pub end: usize,
}

/// What is kept of a path: in one list the cells of all rows, the row of each block, the wires before any
/// token with what the pads share, the frames, and the weights of the nets that count, of which a row has a
/// cell each, with what is left of them by the paths from pad to pad. The sums of the ranges and of the pairs are the same along all paths.
#[derive(Drop)]
pub struct Nets {
    pub cells: Vec<Cell>,
    pub blocks: Vec<BlockRow>,
    pub start: Wires,
    pub frames: Vec<NetFrame>,
    pub weights: Vec<u8>,
    pub lefts: Vec<u8>,
    pub ranges: u64,
    pub pairs: u64,
}

/// What the wires take at least after all tokens: the sum over the nets, the same sum of the gaps alone, and
/// that by what paths leave of the nets.
#[derive(Clone, Copy)]
pub struct Totals {
    pub sum: u64,
    pub hull: u64,
    pub rest: u64,
}

/// A part of the wires that tokens change: the gaps in the items alone, or the greatest of these with range
/// and pair.
#[derive(Clone, Copy)]
pub enum Changing {
    Hull,
    Full,
}

/// How the tokens of a subproblem end: items are left open, or an operator joins two into the one that is
/// left.
#[derive(Clone, Copy)]
pub enum Ending {
    Open,
    Joined(Direction),
}
