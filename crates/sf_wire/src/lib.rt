//! What a placement costs: the length of its wires by half perimeter, and its weighed cost.
//!
//! Wire length goes between the doubled centres of blocks and the doubled points of pads. The
//! crate stands on `sf_place`, whose legal placements are its condition. The crates above use
//! that `wire` and `cost` are those of the definitions, and that every cost is below 2^63 + 2^56.
#![tactic(auto)]

mod costs;
mod extent;
mod wires;

pub use costs::{cost, spots_cost, spots_size};
pub use wires::{net_wire, wire};
