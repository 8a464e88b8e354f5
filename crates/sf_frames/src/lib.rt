//! What a path of tokens from the root needs: a frame for each token, made from the frames before it.
//!
//! A path here takes no halves, so that each block has its whole span. `Frames` keeps the frames of the
//! path that it measured last, and measures another by those of its tokens with which that path began. The
//! frame of a token tells the item that the token made: its shape curve (`sf_curves`), its least values,
//! and the sums over all items and unused blocks after it. Where a span was halved, or a path needs more
//! points than are kept, `Anew` makes the curves of all items and unused blocks anew. The crate above uses of
//! `measure` that it answers the area that these need (`IsMeasured`), and so of `needed_area`
//! (`IsNeededOrNone`).
#![tactic(auto)]

mod anew;
mod area;
mod cut;
mod frame;
mod frames;
mod groups;
mod least;
mod limits;
mod measured;
mod push;
mod stock;
mod stored;
mod sums;
mod top;
mod wholes;

pub use anew::Anew;
pub use frames::Frames;
pub use limits::{MOST_FRAMES, MOST_POINTS};
pub use measured::Measured;
pub use sums::Sums;
