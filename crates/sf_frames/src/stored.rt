//! What is kept of a path.

use crate::frame::{Frame, Kept};
use sf_curves::Point;

/// What is kept of a path: the curves of the blocks, the frames of its tokens, and the points in which the
/// curves lie, those of the blocks' whole curves first, of which there are `whole`.
#[derive(Drop)]
pub struct Stored {
    pub points: Vec<Point>,
    pub blocks: Vec<Kept>,
    pub whole: usize,
    pub frames: Vec<Frame>,
}
