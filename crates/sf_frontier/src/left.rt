//! What is left in the deques of a team.

use sf_cursor::Stretches;

/// What is left of a team.
#[derive(Drop)]
pub struct Finish {
    pub left: Stretches,
}
