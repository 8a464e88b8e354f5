//! The frames of the tokens that have none yet.

ghost use Rattle.std.specs.Prelude.{◌≡◌, ◌≤◌, ◌+◌, length, true, false, IfOk, OnOk, AllPairs};
ghost use Rattle.sf_polish.specs.declared.expr.Token.TheVariants as token;
ghost use Rattle.sf_node.specs.Children.{IsSubproblem};
ghost use Rattle.sf_curves.specs.Points.{IsSlimmer, IsCombination};
ghost use Rattle.sf_curves.specs.Direction.{token_in, size_in};
ghost use Rattle.sf_frames.specs.Kept.{IsNext, IsTight, points_of};
ghost use Rattle.sf_frames.specs.Room.{HasFrames, NeedsMore, HasRoom};

use crate::frame::{Frame, Kept};
use crate::least::least_of;
use crate::limits::MOST_POINTS;
use crate::stored::Stored;
use crate::sums::joined;
use crate::wholes::append;
use sf_curves::{Direction, Point, combine, operator};
use sf_model::{Design, Outline};
use sf_node::Node;
use sf_polish::Token;
use std::alloc::AllocError as NoMemory;

/// Fills the list with the curve of two items, whose curves lie among the points. Inlined where the direction
/// is known, as is what calls it.
#[inline(always)]
fn join(
    list: &mut Vec<Point>,
    stored: &Stored,
    left: Kept,
    right: Kept,
    direction: Direction,
    outline: Outline,
) -> Result<(), NoMemory>
    requires left_order { left.from ≤ left.to }
    requires left_inside { left.to ≤ length stored.now.points.items }
    requires left_falls { AllPairs IsSlimmer (points_of stored.now.points.items left) }
    requires right_order { right.from ≤ right.to }
    requires right_inside { right.to ≤ length stored.now.points.items }
    requires right_falls { AllPairs IsSlimmer (points_of stored.now.points.items right) }
    ensures falls { OnOk result (AllPairs IsSlimmer list.new.items) }
    ensures combines { OnOk result (IsCombination (size_in direction) outline
        (points_of stored.now.points.items left) (points_of stored.now.points.items right) list.new.items) }
{
    let left = &stored.points[left.from..left.to];
    let right = &stored.points[right.from..right.to];
    combine(list, left, right, direction, outline)
}

/// The frame of a block: its curve is there, and it moves from the unused blocks onto the stack.
fn push_block(stored: &mut Stored, design: &Design, node: &Node, block: u16) -> Result<(), NoMemory>
    requires subproblem { IsSubproblem design.now node.now }
    requires frames { HasFrames design.now node.now.tokens stored.old }
    requires tight { IsTight stored.old }
    requires next { IsNext node.now.tokens (length stored.old.frames.items) (token.Block block) }
    ensures frames { HasFrames design.now node.now.tokens stored.new }
    ensures tight { OnOk result (IsTight stored.new) }
    ensures count { OnOk result
        (length stored.new.frames.items ≡ length stored.old.frames.items + 1) }
{
    let sums = stored.sums_now(design, node);
    let below = stored.frames.len();
    stored.frames.push(Frame {
        token: Token::Block(block),
        curve: stored.blocks[usize::from(block)],
        below,
        end: stored.points.len(),
        sums,
    })?;
    Ok(())
}

/// The frame of an operator, made from the two on top. Or none, where there would be too many points.
#[inline(always)]
fn push_joined(
    stored: &mut Stored,
    list: &mut Vec<Point>,
    design: &Design,
    node: &Node,
    direction: Direction,
) -> Result<bool, NoMemory>
    requires subproblem { IsSubproblem design.now node.now }
    requires frames { HasFrames design.now node.now.tokens stored.old }
    requires tight { IsTight stored.old }
    requires next { IsNext node.now.tokens (length stored.old.frames.items) (token_in direction) }
    ensures frames { HasFrames design.now node.now.tokens stored.new }
    ensures tight { OnOk result (IsTight stored.new) }
    ensures count { IfOk result (λ pushed. pushed ≡ true
        → length stored.new.frames.items ≡ length stored.old.frames.items + 1) }
    ensures many { IfOk result (λ pushed. pushed ≡ false → NeedsMore design.now node.now.tokens) }
{
    let right = stored.frames[stored.frames.len() - 1];
    let left = stored.frames[right.below - 1];
    let sums = stored.sums_now(design, node);
    join(
        list,
        stored,
        left.curve,
        right.curve,
        direction,
        design.outline,
    )?;
    if stored.points.len() + list.len() > MOST_POINTS {
        return Ok(false);
    }
    let least = least_of(list);
    let sums = joined(sums, left.curve.least, right.curve.least, least);
    let curve = append(&mut stored.points, list, least)?;
    stored.frames.push(Frame {
        token: operator(direction),
        curve,
        below: left.below,
        end: curve.to,
        sums,
    })?;
    Ok(true)
}

/// The frames of all tokens that have none yet, up to the first that would need too many points.
pub fn extend(
    stored: &mut Stored,
    list: &mut Vec<Point>,
    design: &Design,
    node: &Node,
) -> Result<bool, NoMemory>
    requires subproblem { IsSubproblem design.now node.now }
    requires frames { HasFrames design.now node.now.tokens stored.old }
    requires tight { IsTight stored.old }
    ensures frames { HasFrames design.now node.now.tokens stored.new }
    ensures tight { OnOk result (IsTight stored.new) }
    ensures count { IfOk result (λ extended. extended ≡ true
        → length stored.new.frames.items ≡ length node.now.tokens) }
    ensures many { IfOk result (λ extended. extended ≡ false → NeedsMore design.now node.now.tokens) }
    ensures fits { IfOk result (λ extended. extended ≡ true → HasRoom design.now node.now.tokens) }
{
    let tokens = node.tokens();
    while stored.frames.len() < tokens.len() {
        let pushed = match tokens[stored.frames.len()] {
            Token::Block(block) => {
                push_block(stored, design, node, block)?;
                true
            }
            Token::Beside => push_joined(stored, list, design, node, Direction::Beside)?,
            Token::Above => push_joined(stored, list, design, node, Direction::Above)?,
        };
        if !pushed {
            return Ok(false);
        }
    }
    Ok(true)
}
