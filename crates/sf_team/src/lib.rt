//! A team of threads that does jobs which its caller gives it one after another, over one bounded channel.
//! What a job is, what it comes to and how it is done is the caller's matter: a type that says what a job
//! gives (`Gives`), and a function that does one. The crate stands on `crossbeam_channel` alone, whose rule
//! has two facts: whatever is in the channel, and whatever a worker took, was sent by the caller, and no one
//! else sends. The crates above use the clauses of `Team::give` and `Team::finish`: for every team, every
//! number of workers that could be started and every schedule, the answers are those that each job gives by
//! itself, in the order in which the jobs were given.
#![tactic(auto)]

mod gives;
mod join;
mod message;
mod rule;
mod send;
mod start;
mod team;
mod work;

pub use gives::Gives;
pub use team::{Team, start_team};
