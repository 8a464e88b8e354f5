//! Memory that every measurement fills anew.

use crate::layout::Layout;
use crate::reach::Reach;
use std::alloc::Global;

/// Scratch memory of a measurement of nets. No answer depends on what it holds.
#[derive(Drop)]
pub struct Scratch {
    pub alloc: Global,
    pub layout: Layout,
    pub reaches: Vec<Reach>,
}

impl Scratch {
    /// Nothing yet: the measurements take memory as they need it.
    pub fn new(alloc: Global) -> Scratch {
        Scratch {
            alloc,
            layout: Layout {
                extents: Vec::new(alloc),
                held: Vec::new(alloc),
                seats: Vec::new(alloc),
                table: Vec::new(alloc),
            },
            reaches: Vec::new(alloc),
        }
    }
}
