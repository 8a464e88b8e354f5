//! What the wires of a subproblem take at least, from the pins of its nets.
//!
//! Each block of the subproblem has an extent, and a seat in the item that it stands in (`layout`); by these
//! the crate tells for each net how far its pins are apart at least: over the outline, by two of its blocks, and
//! within each item. `all_wires` sums all parts of the bound over the nets, and `wires_by` one of them alone; by the
//! full part the wires are what paths make of them, where that is more (`with_paths`). It
//! stands on `sf_standard`, which defines these parts. The crate above uses that the sums are those of the
//! definition (`AreWireParts`), and of single nets that the values of a net's parts are (`net_by`), to begin
//! what it keeps of nets along a path.
#![tactic(auto)]

mod extents;
mod homes;
mod laying;
mod layout;
mod meet;
mod one_part;
mod pins;
mod reach;
mod scratch;
mod sums;
mod table;
mod wire_parts;
mod wires;

pub use laying::joined_extent;
pub use layout::Layout;
pub use meet::{met, reach_gap};
pub use one_part::net_by;
pub use pins::pad_reach;
pub use reach::{ANYWHERE, Reach};
pub use scratch::Scratch;
pub use sums::{all_wires, wires_by, with_paths};
pub use wire_parts::{NO_WIRES, WireParts};
pub use wires::{prepare, weighed};
