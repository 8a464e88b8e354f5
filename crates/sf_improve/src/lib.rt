//! Slicing trees made better: an annealing by moves that reach far.
//!
//! `annealed` goes from the slicing tree of an expression over others by exchanges, turns and reinsertions, under a
//! threshold that falls to nothing, and hands over the tokens of the best tree whose plan fits the outline. Up to
//! there plans may stand out of it: what stands out has a price (`goal`). Curves, rooms and wires are kept from one
//! tree to the next, and made anew only where a move changes them (`curves`, `rooms`, `wires`; `desk` has them
//! together).
//!
//! No contract says what it comes to: whoever calls it measures that. Its functions are proved to be safe and to
//! end. The crate stands on `sf_model`, on the tokens of `sf_polish` and on `sf_curves`.
#![tactic(auto)]

mod annealing;
mod curves;
mod desk;
mod edits;
mod falling;
mod goal;
mod leaves;
mod likes;
mod links;
mod nets;
mod rooms;
mod sizes;
mod spelling;
mod wires;
mod words;

pub use annealing::annealed;
pub use falling::part_left;
