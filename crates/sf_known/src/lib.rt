//! What a design gets to know of itself where strong bounds are asked for, and the plan that its search begins
//! with: the cheaper of what annealed walks find and of a floorplan of least area, which a design of few blocks
//! knows by the table of `sf_subsets`. By strong bounds the design has paths as well: a search begins with those that
//! `sf_paths` finds (`find_routes`), and a check takes those of a certificate (`take_paths`). The crate stands on
//! these, on the walks of `sf_anneal`, on the options of the command line, and on the expressions and costs of
//! plans. The crates above use that the design is the one that was asked for (`Knows`), of which there is one, that
//! paths are taken or the first wrong one is told (`Takes`, `Breaks`), and what a search begins with
//! (`IsSearchInput`).
#![tactic(auto)]

mod choosing;
mod knowing;
mod laws;
mod packing;
mod routing;
mod spelling;
mod starting;

pub use knowing::know_alone;
pub use laws::designs_know_one_thing;
pub use packing::packed_beginning;
pub use routing::take_paths;
pub use starting::{Begun, begin};
