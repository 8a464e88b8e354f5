//! Where a search in preorder stands: the subproblem that is next, and for each step of the way to it the
//! value of the subproblem before the step, where one was told, and the span that the step halved.
//!
//! The crate stands on `sf_node` for subproblems and on `sf_certificate` for tags. One node is changed in
//! place: a step forward adds a level, a step back takes it off. Whoever puts tags down in preorder, as a
//! search that makes a certificate and a checker that reads one, uses that `follow` moves to the first of the
//! subproblems that are not visited yet (`pending`), and that no other is lost or comes twice.
#![tactic(auto)]

mod cursor;
mod level;
mod stretch;

pub use cursor::Cursor;
pub use level::Level;
pub use stretch::{Stretch, Stretches};
