//! Slicing trees that cut a placement: at each node some place has all blocks of the one part end at or
//! before it, and all blocks of the other part begin at or after it.
//!
//! `cut` finds such a tree, and none just where there is none. It doesn't matter which cut is taken, since
//! what cuts some blocks cuts any of them: taken is one across before one upward, and of those in one
//! direction the last, so that the tree is skewed. `packed` gives each leaf a shape of its block's list,
//! which makes a floorplan of a design. The crate stands on `sf_model`, on `sf_place` for spots by number and
//! listed sizes, and on `sf_polish` for skewed trees. The crates above use `IsPacked` and `IsRefused`, and
//! the law that a plan in the placed sizes keeps to the placement's extent.
#![tactic(auto)]

mod axis;
mod cutting;
mod fault;
mod laws;
mod packing;
mod parting;

pub use axis::Axis;
pub use cutting::cut;
pub use fault::CutFault;
pub use laws::{cut_placements_have_cut_parts, packed_plans_keep_to_the_extent};
pub use packing::packed;
