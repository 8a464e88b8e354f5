//! What goes through the channel, and what comes back.

use std::sync::Arc;

/// A job and its number among those that were given.
#[derive(Drop)]
pub struct Numbered<J: Drop> {
    pub number: usize,
    pub job: Arc<J>,
}

/// What goes through the channel.
#[derive(Drop)]
pub enum Message<J: Drop> {
    Work(Numbered<J>),
    Stop,
}

/// What a job came to, under its number.
#[derive(Drop)]
pub struct Done<D: Drop> {
    pub number: usize,
    pub answer: D,
}
