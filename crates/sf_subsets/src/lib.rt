//! The least area of all floorplans of a design of few blocks, by a table over all sets of its blocks.
//!
//! The table has a curve for each set: the undominated sizes of all plans of just these blocks that lie in the
//! outline and waste no more than a budget of dead space. A plan of the whole design that keeps the budget has
//! such a plan in each of its rooms, since what stands beside a room holds the area of its own blocks; so the
//! curve of a set is made of the curves of all its splits in two. The crate stands on the model, its types of
//! plans, and on the curves of `sf_curves`. The crates above use that an answer is the least area of all
//! floorplans that fit (`IsLeastSize`, `IsLeastPlan`), or a floor of their areas (`IsAreaFloor`), and that a design
//! knows it where it has learned it (`KnowsArea`).
#![tactic(auto)]

mod budget;
mod found;
mod gathering;
mod laws;
mod learning;
mod least;
mod leasts;
mod limits;
mod splitting;
mod table;
mod tracing;

pub use laws::least_areas_are_one;
pub use learning::learn_area;
pub use least::{LeastPlan, least_plan, least_plan_below, least_size_below};
pub use limits::MOST_BLOCKS;
