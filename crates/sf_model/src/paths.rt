//! Paths from pad to pad by way of nets and blocks.

ghost use Rattle.std.specs.Prelude.{◌≡◌};
ghost use Rattle.sf_model.specs.declared.paths.PathFault.TheVariants.{NoMemory};

use crate::items::Items;
use crate::parts::Pin;
use std::alloc::AllocError;

/// One step of a path: by a net, to a pin of it.
#[derive(Clone, Copy, Debug, PartialEq, Eq)]
pub struct Step {
    pub net: u32,
    pub to: Pin,
}

/// The steps of a path.
pub type Steps = Items<Step>;

/// A path from a pin, step by step.
#[derive(Drop)]
pub struct Path {
    pub first: Pin,
    pub steps: Steps,
}

/// Paths of one axis.
pub type PathList = Items<Path>;

/// Paths from left to right, and paths from below upward.
#[derive(Drop)]
pub struct Paths {
    pub across: PathList,
    pub upward: PathList,
}

/// A weight for each net, by the net's number.
pub type NetWeights = Items<u8>;

/// Paths with what follows from them: what neither axis uses of the weight of each net, and how far the ends
/// of all paths are apart along their axes, in doubled scaled whole units.
#[derive(Drop)]
pub struct Routes {
    pub paths: Paths,
    pub left: NetWeights,
    pub wires: u64,
}

/// Why paths are refused: the first wrong one by its number, first those across and then those upward, from 0
/// on through both; or want of memory.
#[derive(Clone, Copy, Debug, PartialEq, Eq)]
pub enum PathFault {
    BadPath(usize),
    NoMemory,
}

impl<T: Drop + Into<AllocError>> From<T> for PathFault {
    ghost from_gives = { λ _ e. e ≡ NoMemory };

    fn from(_e: T) -> PathFault {
        PathFault::NoMemory
    }
}
