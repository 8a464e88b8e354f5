//! The frames that another path leaves standing: those of the tokens with which both begin.

ghost use Rattle.std.specs.Prelude.{◌≡◌, ◌≤◌, take, map, length};
ghost use Rattle.sf_frames.specs.Kept.{IsStoredIn, IsStoredPath, IsEndOf, IsCommon, IsTight, token_of};

use crate::frame::Frame;
use crate::stored::Stored;
use sf_model::Design;
use sf_polish::Token;

/// With how many tokens of the kept path these begin.
fn common(frames: &[Frame], tokens: &[Token]) -> usize
    ensures { IsCommon (map token_of frames.now) tokens.now result }
{
    let mut count = 0;
    while count < frames.len() && count < tokens.len() {
        if frames[count].token != tokens[count] {
            return count;
        }
        count += 1;
    }
    count
}

/// How many points the first frames need, beside the whole curves.
fn end_of(frames: &[Frame], count: usize, whole: usize) -> usize
    requires { count ≤ length frames.now }
    ensures { IsEndOf frames.now whole count result }
{
    if count == 0 {
        return whole;
    }
    frames[count - 1].end
}

/// Keeps the frames of the tokens with which both paths begin, and no points but what these need.
pub fn back_to(stored: &mut Stored, design: &Design, tokens: &[Token])
    requires stored { IsStoredPath design.now stored.old }
    ensures stored { IsStoredIn design.now tokens.now stored.new }
    ensures first { let frames = stored.new.frames.items in
        frames ≡ take (length frames) stored.old.frames.items }
    ensures most { IsCommon (map token_of stored.old.frames.items) tokens.now
        (length stored.new.frames.items) }
    ensures rest { IsTight stored.new }
    ensures fewer { length stored.new.points.items ≤ length stored.old.points.items }
    ensures blocks { stored.new.blocks.items ≡ stored.old.blocks.items }
{
    let count = common(&stored.frames, tokens);
    let end = end_of(&stored.frames, count, stored.whole);
    stored.frames.truncate(count);
    stored.points.truncate(end);
}
