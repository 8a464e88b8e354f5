//! Subproblems, the ways in which they branch, and which plans belong to them.
//!
//! A `Node` has the tokens with which its plans' expressions begin, a span of each block's list of shapes,
//! and the steps that led to it. The crate stands on `sf_model` for designs and plans and on `sf_polish`
//! for tokens and expressions. A node branches by one more token (`extend_children`) or by halving a span
//! (`split_children`), and each of its plans belongs to exactly one child, by the law
//! `children_share_plans`. The crates above use what these calls and `root` answer, and hold a bound to the
//! two laws that are stated here: that it is sound, and that it is the least cost at a solved subproblem.
#![tactic(auto)]

mod belonging;
mod laws;
mod node;
mod part;
mod step;
mod task;
mod values;

pub use belonging::belongs;
pub use laws::children_share_plans;
pub use node::{Node, used_blocks};
pub use part::{Part, PartValues};
pub use step::Step;
pub use task::Task;
pub use values::Values;
