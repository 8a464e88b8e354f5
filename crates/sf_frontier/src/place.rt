//! The place of a worker in its team.

use crate::ends::{Owner, Thief};
use crate::rule::Served;

/// One worker's owner, and its thieves.
#[derive(Drop)]
pub struct Place<T: Served> {
    pub owner: Owner<T>,
    pub thieves: Vec<Thief<T>>,
}
