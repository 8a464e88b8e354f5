//! How much is kept of a path at most.

/// How many frames are kept at most. No path has more tokens.
pub const MOST_FRAMES: usize = 3_200;

/// How many points are kept at most: those of the blocks' whole curves, and those that the frames added.
pub const MOST_POINTS: usize = 4_000_000;
