//! The list of shapes of each block: a hard block as it stands and, unless it is fixed, turned; a soft block
//! at whole widths whose height over width lies within its limits, all of them or some at equal steps. It
//! stands on `sf_parts`. The crates above use that the lists are those of `AreListsOf`, and that they are
//! what `Design::build` asks for.
#![tactic(auto)]

mod fault;
mod hard;
mod laws;
mod listed;
mod soft;

pub use fault::ShapeFault;
pub use hard::hard_shapes;
pub use laws::lists_are_determined;
pub use listed::lists;
pub use soft::soft_shapes;
