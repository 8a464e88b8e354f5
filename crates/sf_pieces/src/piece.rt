//! A piece of the tree.

use sf_certificate::Tag;
use sf_node::{PartValues, Step};

/// What one walk put down in one go: the path to its first subproblem, the tags from there on in preorder, and
/// what is kept to name the parts of closed ones.
#[derive(Drop)]
pub struct Piece {
    pub first: Vec<Step>,
    pub tags: Vec<Tag>,
    pub kept: Vec<PartValues>,
}
