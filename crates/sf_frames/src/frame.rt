//! What is kept of one token of a path.

use crate::least::Least;
use crate::sums::Sums;
use sf_polish::Token;

/// A shape curve, which lies in the list of all points, and what its room takes at least; nothing where it
/// has no point.
#[derive(Clone, Copy)]
pub struct Kept {
    pub from: usize,
    pub to: usize,
    pub least: Option<Least>,
}

/// What one token makes: the curve of its item, how many tokens made the items under it, how many points
/// there were after it, and the sums over all items and unused blocks after it.
#[derive(Clone, Copy)]
pub struct Frame {
    pub token: Token,
    pub curve: Kept,
    pub below: usize,
    pub end: usize,
    pub sums: Option<Sums>,
}
