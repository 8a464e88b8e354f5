//! The model: designs, plans, and what a floorplan costs.
//!
//! A `Design` is blocks with their shapes, pads, nets, an outline and weights; each keeps the limits. The crate
//! stands on std alone, and knows nothing of what a text says: `sf_parts` has that, and makes designs of it. The
//! crates above rest on the limits that each `Design` carries, on the floor of its area and the paths that it may
//! know, and on the definitions of slicing trees, wire length and cost in specs/.
#![tactic(auto)]

mod cost_text;
mod design;
mod items;
mod laws;
mod name;
mod parts;
mod paths;
mod plan;
mod routing;

pub use cost_text::push_cost;
pub use design::Design;
pub use items::Items;
pub use laws::{
    costs_are_bounded, floors_change_no_plan, legal_paths_lead, paths_change_no_plan,
    spots_fill_plans,
};
pub use name::Name;
pub use parts::{
    Block, BlockList, Net, NetList, Outline, Pad, PadList, Pin, Pins, Shape, Shapes, Weights,
};
pub use paths::{NetWeights, Path, PathFault, PathList, Paths, Routes, Step, Steps};
pub use plan::{Plan, Spot};

/// No cost: the greatest number, which every cost is below.
pub const MAX: u64 = 18_446_744_073_709_551_615;

/// The greatest side of a block or of the outline, in scaled whole units.
pub const MOST_SIDE: u64 = 1_048_576;
