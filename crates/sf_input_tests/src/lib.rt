//! Tests of the calls of one crate each, of those that read and make designs and jobs, in a file for each crate: what no
//! clause says, as a text of an outside source or a value worked out by hand. They stand over the crates that they
//! call, and in crates of their own, since a crate with tests is proved twice.
#![tactic(auto)]

#[cfg(test)]
mod generated;
#[cfg(test)]
mod gsrc;
#[cfg(test)]
mod io;
#[cfg(test)]
mod jobs;
#[cfg(test)]
mod lex;
#[cfg(test)]
mod model;
#[cfg(test)]
mod soft_shapes;
#[cfg(test)]
mod words;
#[cfg(test)]
mod yal;
