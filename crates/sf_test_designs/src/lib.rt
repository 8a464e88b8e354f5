//! Small designs that tests of several crates take: blocks, nets, pads and spots by hand, and designs that are drawn from
//! random numbers. The crate stands on `sf_model` alone.
#![tactic(auto)]

mod designs;
mod drawing;

pub use designs::{
    FLAT, NARROW, SQUARE, WIDE, WIDEST, bare, block, block_of, net, pad, spot, three_shapes,
    two_blocks, two_squares,
};
pub use drawing::drawn;
