//! What the frames tell of the path so far: the sums over its items and the unused blocks.

ghost use Rattle.std.specs.Prelude.{◌≡◌, List, length};
ghost use Rattle.sf_model.specs.Legal.{block_count};
ghost use Rattle.sf_polish.specs.declared.expr.Token.{Token as TokenValue};
ghost use Rattle.sf_frames.specs.Kept.{groups_at, AreWhole};
ghost use Rattle.sf_frames.specs.Room.{HasFrames};
ghost use Rattle.sf_frames.specs.Sums.{AreSumsOrNone};

use crate::frame::Kept;
use crate::stored::Stored;
use crate::sums::Sums;
use sf_curves::Point;
use sf_model::Design;
use sf_node::Node;

/// The sums over all blocks.
fn start(points: &[Point], blocks: &[Kept], whole: usize, design: &Design) -> Option<Sums>
    requires wholes { AreWhole design.now points.now blocks.now whole }
    requires all { length blocks.now ≡ block_count design.now }
    ensures { (tokens : List TokenValue) → AreSumsOrNone (groups_at design.now tokens 0) result }
{
    let mut area = 0;
    let mut w = 0;
    let mut h = 0;
    let mut rest = blocks.len();
    while rest > 0 {
        rest -= 1;
        match blocks[rest].least {
            None => return None,
            Some(least) => {
                area += least.area;
                w = least.w.max(w);
                h = least.h.max(h);
            }
        }
    }
    Some(Sums { area, w, h })
}

impl Stored {
    /// The sums over the items and the unused blocks after the tokens that have frames.
    #[inline(always)]
    pub fn sums_now(&self, design: &Design, node: &Node) -> Option<Sums>
        requires { HasFrames design.now node.now.tokens self.now }
        ensures { AreSumsOrNone
            (groups_at design.now node.now.tokens (length self.now.frames.items)) result }
    {
        if self.frames.is_empty() {
            return start(&self.points, &self.blocks, self.whole, design);
        }
        self.frames[self.frames.len() - 1].sums
    }
}
