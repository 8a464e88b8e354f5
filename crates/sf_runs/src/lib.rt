//! Tests of whole runs, as tables of what is given and what is answered: words and files in memory, and what
//! is then printed, stored and answered. They stand over every crate that a run goes through, and in a crate
//! of their own, since a crate with tests is proved twice.
#![tactic(auto)]

#[cfg(test)]
mod tests;
