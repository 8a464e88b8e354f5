//! How many blocks a table is made for.

/// The most blocks that a table is made for: it has a curve for each set of them.
pub const MOST_BLOCKS: u16 = 18;
