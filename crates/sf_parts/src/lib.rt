//! What the texts of a design say, and the design that it becomes.
//!
//! A reader hands over `Parts`. `Parts::admit` tests them and names their first fault, and `Design::build`, a call
//! of the trait `Build`, makes the design of admitted parts, with a list of shapes for each block. The crate stands
//! on `sf_model` for designs and their limits. The crates above use the clauses of these two calls, `IsAdmitted` and
//! `IsDesignOf`, what admitted parts keep, and that parts have one design.
#![tactic(auto)]

mod admit;
mod build;
mod fault;
mod index;
mod laws;
mod limits;
mod names;
mod nets;
mod pad_places;
mod raw;
mod table;

pub use admit::admitted_parts_keep_limits;
pub use build::Build;
pub use fault::{BuildFault, Limit};
pub use laws::designs_are_determined;
pub use raw::{
    Kind, NameList, Parts, RawBlock, RawBlockList, RawNet, RawNetList, RawPad, RawPadList, RawPin,
    RawPins,
};
