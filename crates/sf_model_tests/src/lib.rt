//! Tests of the calls of one crate each, of those that speak of floorplans, their curves, places and wires, in a file for
//! each crate: what no clause says, as a value worked out by hand or by another program. They stand over the crates that
//! they call, and in crates of their own, since a crate with tests is proved twice.
#![tactic(auto)]

#[cfg(test)]
mod anneal;
#[cfg(test)]
mod curves;
#[cfg(test)]
mod cuts;
#[cfg(test)]
mod pl_writer;
#[cfg(test)]
mod place;
#[cfg(test)]
mod polish;
#[cfg(test)]
mod subsets;
#[cfg(test)]
mod wire;
