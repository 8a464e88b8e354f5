//! Back to the tokens with which the kept path and another begin.

ghost use Rattle.std.specs.Prelude.{◌≡◌, ◌≤◌, take, map, length};
ghost use Rattle.sf_bounds.specs.Rows.{AreKept, IsNetEnd, token_of, tokens_of};

use crate::net_frame::{NetFrame, Nets};
use sf_model::Design;
use sf_polish::Token;

/// With how many tokens of the kept path these begin.
fn common(frames: &[NetFrame], tokens: &[Token]) -> usize
    ensures within_kept { result ≤ length frames.now }
    ensures within_tokens { result ≤ length tokens.now }
    ensures same { take result (map token_of frames.now) ≡ take result tokens.now }
{
    let mut count = 0;
    while count < frames.len() && count < tokens.len() {
        if frames[count].token != tokens[count] {
            return count;
        }
        count += 1;
    }
    count
}

/// How many cells the first frames need.
fn end_of(nets: &Nets, design: &Design, count: usize) -> usize
    requires kept { AreKept design.now (tokens_of nets.now) nets.now }
    requires few { count ≤ length nets.now.frames.items }
    ensures { IsNetEnd design.now nets.now.start nets.now.frames.items count result }
{
    if count == 0 {
        return nets.start.at + nets.weights.len();
    }
    nets.frames[count - 1].end
}

/// Keeps the frames of the tokens with which both paths begin, up to so many.
pub fn back_to(nets: &mut Nets, design: &Design, tokens: &[Token], most: usize)
    requires { AreKept design.now (tokens_of nets.old) nets.old }
    ensures kept { AreKept design.now tokens.now nets.new }
    ensures few { length nets.new.frames.items ≤ most }
{
    let count = common(&nets.frames, tokens).min(most);
    let end = end_of(nets, design, count);
    nets.frames.truncate(count);
    nets.cells.truncate(end);
}
