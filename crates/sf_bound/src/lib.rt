//! What a search asks of a bound: a number for each subproblem that no plan of it which fits undercuts, and at
//! a solved one the least cost.
//!
//! `Bounds` is a trait with three laws: it is sound, it is exact at the end, and no part of it is above it. A
//! bound has a room of its own, in which it keeps from one measurement to the next what saves it work; no
//! answer depends on that. `child_bound` takes a parent's value where the child has it, and `solve` gives the
//! cheapest plan of a solved subproblem, whatever the bound. The crate stands on `sf_node` for subproblems, on
//! `sf_curves` for the root curve and its trace, and on `sf_place` and `sf_wire` for the cost of a plan. The
//! crates above use that `bound` and `child_bound` answer the values, `IsSolution` of `solve`, and that a
//! solved subproblem leaves one expression to answer (`laws`).
#![tactic(auto)]

mod bounds;
mod children;
mod laws;
mod only_plan;
mod solving;

pub use bounds::Bounds;
pub use children::child_bound;
pub use laws::solved_plans_are_one;
pub use solving::solve;
