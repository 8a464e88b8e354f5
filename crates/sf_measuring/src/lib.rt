//! The commands that search nothing: `measure`, which judges the placement of a file and prices it, and `shape`,
//! which prints the shape curve of an expression. Each reads a design and one more file, and gives the text that
//! is to be printed, or the reason why there is none. The crate stands on `sf_designs` for the design and the
//! texts, on `sf_place` and `sf_wire` for the verdict and the cost, and on `sf_curves` for the curve. The crate
//! above, which holds `run`, uses the clauses of both calls, and those of `read_spots`, since a search may begin
//! with the placement of a file as well.
#![tactic(auto)]

mod measuring;
mod placed_lines;
mod shaping;

pub use measuring::{measure, read_spots};
pub use shaping::shape;
