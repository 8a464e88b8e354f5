//! Pads by levels of their places along an axis.

use sf_model::{Pad, Pin};
use std::alloc::{AllocError, Global};

/// How many levels there are.
pub const LEVELS: u64 = 8;

/// An axis along which paths lead: from left to right, or from below upward.
#[derive(Clone, Copy)]
pub enum Axis {
    Across,
    Upward,
}

/// The place of each pad along an axis, and the least and the greatest of these.
#[derive(Drop)]
pub struct Levels {
    places: Vec<i64>,
    least: i64,
    most: i64,
}

impl Axis {
    /// Where a pad stands along the axis.
    fn place_of(self, pad: &Pad) -> i64 {
        match self {
            Axis::Across => i64::from(pad.x),
            Axis::Upward => i64::from(pad.y),
        }
    }
}

impl Levels {
    /// The pads along an axis.
    pub fn new(alloc: Global, pads: &[Pad], axis: Axis) -> Result<Levels, AllocError> {
        let mut places = Vec::with_capacity(alloc, pads.len())?;
        let mut least = i64::MAX;
        let mut most = i64::MIN;
        for pad in pads {
            let place = axis.place_of(pad);
            places.push(place)?;
            least = least.min(place);
            most = most.max(place);
        }
        Ok(Levels {
            places,
            least,
            most,
        })
    }

    /// Where a pad stands.
    pub fn place(&self, pad: u16) -> Option<i64> {
        match self.places.get(usize::from(pad)) {
            Some(place) => Some(*place),
            None => None,
        }
    }

    /// The level of a pad, below `LEVELS`.
    pub fn level(&self, pad: u16) -> Option<u64> {
        let place = self.place(pad)?;
        let range = self.most.abs_diff(self.least).saturating_add(1);
        let level = place
            .abs_diff(self.least)
            .saturating_mul(LEVELS)
            .checked_div(range)?;
        Some(level)
    }

    /// Whether a pin is a pad of this level at least.
    pub fn is_from(&self, pin: Pin, level: u64) -> bool {
        match pin {
            Pin::Block(_) => false,
            Pin::Pad(pad) => matches!(self.level(pad), Some(own) if own >= level),
        }
    }
}
