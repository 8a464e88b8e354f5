//! The deques of a team: each worker has one, into which it puts and from which it takes, and the worker
//! before it steals there.
//!
//! `team` makes the deques, with an owner and a thief each, and `finish` takes what is left in them. The
//! crate stands on the ruled calls of `crossbeam_deque` and on `sf_cursor` for the stretches. What a team serves, a
//! property of tasks, is chosen by its caller (`Served`). The crates above use that of each deque, whatever
//! the schedule, what was put is what its owner took, what its thief took and what is left (`IsFinished`),
//! and that every task that is taken or left is served. An owner takes the last of what it put and did not
//! take, and its thief the first (`last`, `IsDrained`). None of the first 64 puts at a deque comes back (`slots`,
//! `refused`).
#![tactic(auto)]

mod ends;
mod left;
mod place;
mod ring;
mod rule;
mod settle;

pub use ends::{Owner, Thief};
pub use left::Finish;
pub use place::Place;
pub use ring::team;
pub use rule::Served;
pub use settle::finish;
