//! Pieces of the tree of a search, and the certificate that they make.
//!
//! A walk puts down its tags from one subproblem on in preorder, as one piece. The law of pieces
//! (`pieces_make_trees`) says that pieces which stand in the order of their first paths are the tree when they have
//! just its subproblems. Beside it stands how the parts of the bound are named once the cost is known (`name_all`),
//! which changes no tag but those that name another part than the area (`is_late`).
#![tactic(auto)]

mod assembling;
mod laws;
mod laying;
mod naming;
mod piece;

pub use assembling::{assemble, name_pieces};
pub use laws::pieces_make_trees;
pub use laying::lay;
pub use naming::{is_late, name_all};
pub use piece::Piece;
