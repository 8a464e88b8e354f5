//! The frames of the path that was measured last.

ghost use Rattle.std.specs.Prelude.{◌≡◌, ◌≢◌, length, IfOk};
ghost use Rattle.sf_model.specs.declared.design.Design.{Design as DesignValue};
ghost use Rattle.sf_node.specs.Children.{IsSubproblem};

use crate::cut::back_to;
use crate::measured::{Measured, answer_of};
use crate::push::extend;
use crate::stored::Stored;
use crate::wholes::fill;
use sf_curves::Point;
use sf_model::Design;
use sf_node::Node;
use std::alloc::{AllocError as NoMemory, Global};
use std::marker::Model;

/// The frames of the path that was measured last. A contract sees what is kept, which is of one design
/// (`IsStoredPath`); `list` is a buffer for the next curve. No more is kept than `MOST_POINTS` and `MOST_FRAMES`
/// say: from the frame on that would pass them the path is not kept.
#[derive(Drop)]
pub struct Frames {
    alloc: Global,
    stored: Stored,
    list: Vec<Point>,
}

impl Model for Frames {
    ghost use Rattle.sf_frames.specs.declared.stored.Stored.{Stored};

    ghost Value = { Stored };

    ghost use Rattle.sf_frames.specs.Room.{IsWithinRoom};

    ghost view = { λ s. s.stored };

    ghost invariant = { λ s. IsWithinRoom s.stored };
}

impl Frames {
    ghost use Rattle.sf_frames.specs.Measured.{IsMeasured};
    ghost use Rattle.sf_frames.specs.Kept.{IsStoredPath};
    ghost use Rattle.sf_frames.specs.Room.{HasRoom};
    ghost use Rattle.sf_frames.specs.declared.measured.Measured.TheVariants.{TooLarge};

    /// No frame yet, so that they are of any design.
    pub fn new(alloc: Global) -> Frames
        ensures { (design : DesignValue) → IsStoredPath design result }
    {
        Frames {
            alloc,
            stored: Stored {
                points: Vec::new(alloc),
                blocks: Vec::new(alloc),
                whole: 0,
                frames: Vec::new(alloc),
            },
            list: Vec::new(alloc),
        }
    }

    /// What the items and the unused blocks of a subproblem take, whose spans are whole. Only the tokens are
    /// measured by which it differs from the path before. The answer is `TooLarge` just where the path needs
    /// more points than are kept: those of the blocks' whole curves, and of the curve of each item that an
    /// operator makes.
    pub fn measure(&mut self, design: &Design, node: &Node) -> Result<Measured, NoMemory>
        requires subproblem { IsSubproblem design.now node.now }
        requires whole { length node.now.steps ≡ length node.now.tokens }
        requires serves { IsStoredPath design.now self.old }
        ensures measured { IfOk result (IsMeasured design.now node.now) }
        ensures room { IfOk result (λ found. found ≢ TooLarge → HasRoom design.now node.now.tokens) }
        ensures serves { IsStoredPath design.now self.new }
    {
        fill(&mut self.stored, self.alloc, design)?;
        back_to(&mut self.stored, design, node.tokens());
        let kept = extend(&mut self.stored, &mut self.list, design, node)?;
        if !kept {
            return Ok(Measured::TooLarge);
        }
        let sums = self.stored.sums_now(design, node);
        Ok(answer_of(sums))
    }
}
