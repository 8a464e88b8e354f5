//! The frames of nets of one token more.

ghost use Rattle.std.specs.Prelude.{◌≡◌, ◌<◌, ◌≤◌, ◌+◌, length, OnOk};
ghost use Rattle.sf_polish.specs.declared.expr.Token.TheVariants as token;
ghost use Rattle.sf_node.specs.Children.{IsSubproblem};
ghost use Rattle.sf_curves.specs.Direction.{token_in};
ghost use Rattle.sf_frames.specs.Kept.{items_at, IsNext};
ghost use Rattle.sf_bounds.specs.Rows.{AreKept, AreTop, AreWires};

use crate::net_frame::{BlockRow, NetFrame, Nets, Wires};
use crate::net_rows::join_rows;
use sf_curves::{Direction, operator};
use sf_model::Design;
use sf_nets::joined_extent;
use sf_node::Node;
use sf_polish::Token;
use std::alloc::AllocError as NoMemory;

/// The frames of the two items on top, the left or lower one first.
pub fn top_pair(
    nets: &Nets,
    design: &Design,
    node: &Node,
    direction: Direction,
) -> (NetFrame, NetFrame)
    requires subproblem { IsSubproblem design.now node.now }
    requires kept { AreKept design.now node.now.tokens nets.now }
    requires next { IsNext node.now.tokens (length nets.now.frames.items) (token_in direction) }
    ensures { AreTop design.now node.now.tokens nets.now.cells.items nets.now.start
        nets.now.frames.items result.0 result.1 }
{
    let right = nets.frames[nets.frames.len() - 1];
    let left = nets.frames[right.below - 1];
    (left, right)
}

/// The wires after so many tokens.
pub fn wires_after(nets: &Nets, design: &Design, node: &Node, count: usize) -> Wires
    requires kept { AreKept design.now node.now.tokens nets.now }
    requires few { count ≤ length nets.now.frames.items }
    ensures { AreWires design.now nets.now.cells.items (items_at node.now.tokens count) result }
{
    if count == 0 {
        return nets.start;
    }
    nets.frames[count - 1].wires
}

/// The frame of a block: its row is there, and no gap comes with it.
fn push_block(nets: &mut Nets, design: &Design, node: &Node, block: u16) -> Result<(), NoMemory>
    requires subproblem { IsSubproblem design.now node.now }
    requires kept { AreKept design.now node.now.tokens nets.old }
    requires next { IsNext node.now.tokens (length nets.old.frames.items) (token.Block block) }
    ensures kept { AreKept design.now node.now.tokens nets.new }
    ensures count { OnOk result (length nets.new.frames.items ≡ length nets.old.frames.items + 1) }
{
    let below = nets.frames.len();
    let wires = wires_after(nets, design, node, below);
    let BlockRow { extent, row } = nets.blocks[usize::from(block)];
    let end = nets.cells.len();
    nets.frames.push(NetFrame {
        token: Token::Block(block),
        extent,
        below,
        row,
        wires,
        end,
    })?;
    Ok(())
}

/// The frame of an operator, made from the two on top.
#[inline(always)]
fn push_joined(
    nets: &mut Nets,
    design: &Design,
    node: &Node,
    direction: Direction,
) -> Result<(), NoMemory>
    requires subproblem { IsSubproblem design.now node.now }
    requires kept { AreKept design.now node.now.tokens nets.old }
    requires next { IsNext node.now.tokens (length nets.old.frames.items) (token_in direction) }
    ensures kept { AreKept design.now node.now.tokens nets.new }
    ensures count { OnOk result (length nets.new.frames.items ≡ length nets.old.frames.items + 1) }
{
    let (left, right) = top_pair(nets, design, node, direction);
    let under = wires_after(nets, design, node, left.below);
    let wires = join_rows(
        &mut nets.cells,
        left.row,
        right.row,
        under.at,
        &nets.weights,
        direction,
        left.extent,
    )?;
    let end = nets.cells.len();
    nets.frames.push(NetFrame {
        token: operator(direction),
        extent: joined_extent(direction, left.extent, right.extent),
        below: left.below,
        row: wires.at,
        wires,
        end,
    })?;
    Ok(())
}

/// The frame of a token. It stands apart, so that the loops over the nets have the registers to themselves.
#[inline(never)]
fn push(nets: &mut Nets, design: &Design, node: &Node, token: Token) -> Result<(), NoMemory>
    requires subproblem { IsSubproblem design.now node.now }
    requires kept { AreKept design.now node.now.tokens nets.old }
    requires next { IsNext node.now.tokens (length nets.old.frames.items) token }
    ensures kept { AreKept design.now node.now.tokens nets.new }
    ensures count { OnOk result (length nets.new.frames.items ≡ length nets.old.frames.items + 1) }
{
    match token {
        Token::Block(block) => push_block(nets, design, node, block),
        Token::Beside => push_joined(nets, design, node, Direction::Beside),
        Token::Above => push_joined(nets, design, node, Direction::Above),
    }
}

/// The frames of so many tokens.
pub fn extend(nets: &mut Nets, design: &Design, node: &Node, count: usize) -> Result<(), NoMemory>
    requires subproblem { IsSubproblem design.now node.now }
    requires kept { AreKept design.now node.now.tokens nets.old }
    requires few { length nets.old.frames.items ≤ count }
    requires inside { count ≤ length node.now.tokens }
    ensures kept { AreKept design.now node.now.tokens nets.new }
    ensures count { OnOk result (length nets.new.frames.items ≡ count) }
{
    let tokens = node.tokens();
    while nets.frames.len() < count {
        let token = tokens[nets.frames.len()];
        push(nets, design, node, token)?;
    }
    Ok(())
}
