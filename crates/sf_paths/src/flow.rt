//! How often paths go by each net.

use crate::web::Web;
use sf_model::Design;
use std::alloc::{AllocError, Global};

/// How many paths enter a net at each hook and leave one there, and how many go through each net and how many
/// more may.
#[derive(Drop)]
pub struct Flow {
    entering: Vec<u8>,
    leaving: Vec<u8>,
    through: Vec<u8>,
    spare: Vec<u8>,
}

/// Zeros.
fn zeros(alloc: Global, count: usize) -> Result<Vec<u8>, AllocError> {
    let mut counts = Vec::with_capacity(alloc, count)?;
    for _ in 0..count {
        counts.push(0)?;
    }
    Ok(counts)
}

/// Whether one of the counts is above 0.
fn has_some(counts: &[u8], at: usize) -> bool {
    match counts.get(at) {
        Some(count) => *count > 0,
        None => false,
    }
}

/// One more of a count.
fn add_one(counts: &mut [u8], at: usize) {
    if let Some(count) = counts.get_mut(at) {
        *count = count.saturating_add(1);
    }
}

/// One fewer of a count.
fn take_one(counts: &mut [u8], at: usize) {
    if let Some(count) = counts.get_mut(at) {
        *count = count.saturating_sub(1);
    }
}

impl Flow {
    /// No path yet.
    pub fn new(alloc: Global, design: &Design, web: &Web) -> Result<Flow, AllocError> {
        let nets = design.nets.as_slice();
        let mut spare = Vec::with_capacity(alloc, nets.len())?;
        for net in nets {
            spare.push(net.weight)?;
        }
        Ok(Flow {
            entering: zeros(alloc, web.hook_count())?,
            leaving: zeros(alloc, web.hook_count())?,
            through: zeros(alloc, nets.len())?,
            spare,
        })
    }

    /// Whether a path enters a net at a hook.
    pub fn enters(&self, hook: usize) -> bool {
        has_some(&self.entering, hook)
    }

    /// Whether a path leaves a net at a hook.
    pub fn leaves(&self, hook: usize) -> bool {
        has_some(&self.leaving, hook)
    }

    /// Whether a path goes through a net.
    pub fn is_used(&self, net: u32) -> bool {
        has_some(&self.through, net as usize)
    }

    /// Whether one more path may go through a net.
    pub fn has_room(&self, net: u32) -> bool {
        has_some(&self.spare, net as usize)
    }

    /// One path more enters at a hook.
    pub fn enter(&mut self, hook: usize) {
        add_one(&mut self.entering, hook);
    }

    /// One path fewer enters at a hook.
    pub fn enter_no_more(&mut self, hook: usize) {
        take_one(&mut self.entering, hook);
    }

    /// One path more leaves at a hook.
    pub fn leave(&mut self, hook: usize) {
        add_one(&mut self.leaving, hook);
    }

    /// One path fewer leaves at a hook.
    pub fn leave_no_more(&mut self, hook: usize) {
        take_one(&mut self.leaving, hook);
    }

    /// One path more goes through a net.
    pub fn go_through(&mut self, net: u32) {
        add_one(&mut self.through, net as usize);
        take_one(&mut self.spare, net as usize);
    }

    /// One path fewer goes through a net.
    pub fn go_through_no_more(&mut self, net: u32) {
        take_one(&mut self.through, net as usize);
        add_one(&mut self.spare, net as usize);
    }
}
