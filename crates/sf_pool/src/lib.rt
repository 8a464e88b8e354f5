//! The machine of the search core as a value: a pool of open and held tasks, with its entries and the least cost found.
//!
//! `Pool::apply` makes a step of `sf_search_core` or refuses it, so any list of events can be tried. The crate stands
//! on `sf_search_core` for the events and what they mean, and on `sf_node` for subproblems and their children; the
//! bound is known by its values alone. No program stands on it: a search keeps one subproblem and its steps, and the
//! states of the machine are what its contracts speak of.
#![tactic(auto)]

mod pool;

pub use pool::Pool;
