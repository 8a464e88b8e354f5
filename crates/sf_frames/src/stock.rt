//! Lists of points that are used again.

use sf_curves::{Curve, Point};
use std::alloc::{AllocError as NoMemory, Global};

/// Lists with room for more points than this are not kept.
const MOST_POINTS: usize = 1024;

/// Lists of points that no curve holds now, so that most new curves are made without asking for memory.
#[derive(Drop)]
pub struct Stock {
    alloc: Global,
    lists: Vec<Vec<Point>>,
}

impl Stock {
    /// A stock without a list.
    pub fn new(alloc: Global) -> Stock {
        Stock {
            alloc,
            lists: Vec::new(alloc),
        }
    }

    /// A list to make a curve in, an old one if there is one.
    pub fn take(&mut self) -> Vec<Point> {
        match self.lists.pop() {
            Some(list) => list,
            None => Vec::new(self.alloc),
        }
    }

    /// Keeps the list of a curve that is no longer needed.
    pub fn keep(&mut self, curve: Curve) -> Result<(), NoMemory> {
        let list = curve.into_points();
        if list.capacity() <= MOST_POINTS {
            self.lists.push(list)?;
        }
        Ok(())
    }
}
