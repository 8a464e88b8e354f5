//! Annealed starts: plans to begin a search with.
//!
//! A walk goes over normalised Polish expressions by the three moves of Wong and Liu (1986), from the chain
//! of all blocks on. A moved expression is kept where it costs at most so much more, by a threshold that
//! falls to nothing; its cost is that of the trace of the least area on its root curve. `one_start` makes one
//! walk over the words of any generator, and `starts` several in threads, each over words of its own: of what
//! they find it answers the first of least cost. That words determine this is the law `walks_are_one`.
//!
//! Behind a walk `improve` goes over slicing trees by moves that reach further. What it does there is free,
//! for the plan that it comes to is measured once, by `measure`, and taken only where it costs less.
//! `improved_starts` does so in the thread of each walk.
//!
//! The crate stands on `sf_polish`, `sf_curves` and `sf_wire`. The crates above use that what is answered is a
//! floorplan that fits and costs what is said (`IsFloorplan`), and no more than the walks' least
//! (`IsNoDearer`).
#![tactic(auto)]

mod beginning;
mod improving;
mod keeping;
mod laws;
mod measuring;
mod moves;
mod parts;
mod placing;
mod starting;
mod walking;

pub use beginning::Beginning;
pub use improving::improve;
pub use laws::{moves_are_their_inverses, walks_are_one};
pub use measuring::{measure, whole_spans};
pub use moves::{flip_chain, run_count, swap_operands, swap_step};
pub use starting::{improved_starts, starts};
pub use walking::one_start;
