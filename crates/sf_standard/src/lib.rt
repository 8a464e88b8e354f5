//! The standard bound of a subproblem as a definition, with its laws: no plan that belongs to the
//! subproblem and fits costs less, and at a solved subproblem it is the least cost; a child by a block
//! that stays incomplete keeps the value; at every subproblem, a solved one too, it is the value from
//! area and wires; the paths of the design only raise it; and where each part has a plan in the outline,
//! the wires stay small. It stands on `sf_node` and holds no code that measures; `sf_bounds` above
//! computes it.
#![tactic(auto)]

mod hull;
mod laws;

pub use hull::{Extent, Interval, Offset};
pub use laws::{
    areas_are_all, blocks_keep_values, parts_are_below, paths_only_raise, standard_is_lawful,
    standard_is_open, wires_are_bounded,
};
