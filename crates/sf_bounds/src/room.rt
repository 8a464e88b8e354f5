//! The memory of one worker.

ghost use Rattle.sf_model.specs.declared.design.Design.{Design as DesignValue};

use crate::net_frames::NetFrames;
use sf_frames::{Anew, Frames};
use sf_nets::Scratch;
use std::alloc::Global;
use std::marker::Model;

/// Memory of one worker: the frames of areas and of nets along the path that it measured last. A contract sees
/// what is kept, which is of one design (`IsMemoryOf`).
#[derive(Drop)]
pub struct Room {
    pub(crate) frames: Frames,
    pub(crate) nets: NetFrames,
    pub(crate) anew: Anew,
    pub(crate) scratch: Scratch,
}

impl Model for Room {
    ghost use Rattle.sf_bounds.specs.Memory.{Memory};

    ghost Value = { Memory };

    ghost view = { λ r. record { frames = r.frames; nets = r.nets } };
}

impl Room {
    ghost use Rattle.sf_bounds.specs.Memory.{IsMemoryOf};

    /// A room that keeps nothing yet, and takes memory as the calls need it.
    pub fn new(alloc: Global) -> Room
        ensures { (design : DesignValue) → IsMemoryOf design result }
    {
        Room {
            frames: Frames::new(alloc),
            nets: NetFrames::new(),
            anew: Anew::new(alloc),
            scratch: Scratch::new(alloc),
        }
    }
}
