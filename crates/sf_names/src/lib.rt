//! Names that are found by a hash: a list of distinct ones, and a value for each of some.
//!
//! A name is a list of bytes, and is kept by where it stands: none is copied. Whoever writes a text doesn't
//! choose how its names are hashed, since the hash depends on the whole text, so that a name costs about as
//! much in one text as in another. `Names` is the list of the distinct names in the order in which they came,
//! and `NameMap` has a value for each of some names.
#![tactic(auto)]

mod hash;
mod map;
mod names;

pub use hash::TextHash;
pub use map::NameMap;
pub use names::Names;
