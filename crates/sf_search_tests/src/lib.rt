//! Tests of the calls of one crate each, of those that search, bound and certify, in a file for each crate: what no
//! clause says, as a value worked out by hand. They stand over the crates that they call, and in crates of their own,
//! since a crate with tests is proved twice.
#![tactic(auto)]

#[cfg(test)]
mod bounds;
#[cfg(test)]
mod budget;
#[cfg(test)]
mod certificate;
#[cfg(test)]
mod checker;
#[cfg(test)]
mod cursor;
#[cfg(test)]
mod frontier;
#[cfg(test)]
mod incumbent;
#[cfg(test)]
mod node;
#[cfg(test)]
mod nodes;
#[cfg(test)]
mod paths;
#[cfg(test)]
mod pool;
#[cfg(test)]
mod rounds;
#[cfg(test)]
mod team;
#[cfg(test)]
mod wrong_paths;
