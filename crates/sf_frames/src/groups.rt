//! The curves of the items and of the unused blocks, made anew from the tokens.

ghost use Rattle.std.specs.Prelude.{◌≡◌, ◌<◌, ◌≤◌, [], length, OnOk, not};
ghost use Rattle.sf_node.specs.Children.{IsSubproblem, is_unused};
ghost use Rattle.sf_model.specs.Spans.{shapes_in};
ghost use Rattle.sf_curves.specs.Direction.{size_in};
ghost use Rattle.sf_frames.specs.Anew.{IsJoined, IsStep, AreItemCurves};
ghost use Rattle.sf_standard.specs.Operands.{HasOperands};
ghost use Rattle.sf_frames.specs.Anew.{AddsUnused, AreGroupCurves};

use crate::stock::Stock;
use sf_curves::{Curve, Direction, block_curve_in};
use sf_model::{Design, Outline};
use sf_node::{Node, used_blocks};
use sf_polish::Token;
use std::alloc::{AllocError as NoMemory, Global};

/// Joins the top two curves, and keeps their lists. Inlined where the direction is known.
#[inline(always)]
fn join_top(
    curves: &mut Vec<Curve>,
    stock: &mut Stock,
    direction: Direction,
    outline: Outline,
) -> Result<(), NoMemory>
    requires { 2 ≤ length curves.old.items }
    ensures { OnOk result
        (IsJoined (size_in direction) outline curves.old.items curves.new.items) }
{
    let second = curves.pop().unwrap();
    let first = curves.pop().unwrap();
    let joined = first.joined_in(stock.take(), &second, direction, outline)?;
    curves.push(joined)?;
    stock.keep(first)?;
    stock.keep(second)
}

/// Reads one token: a block pushes its curve, an operator joins the top two.
#[tactic(auto, using(sf_bound::proofs::Spans::curve_spans))]
fn step(
    curves: &mut Vec<Curve>,
    stock: &mut Stock,
    token: Token,
    design: &Design,
    node: &Node,
) -> Result<(), NoMemory>
    requires subproblem { IsSubproblem design.now node.now }
    requires operands { HasOperands (length design.now.blocks) (length curves.old.items) token }
    ensures { OnOk result
        (IsStep (shapes_in design.now node.now.spans) design.now.outline token
        curves.old.items curves.new.items) }
{
    match token {
        Token::Block(block) => {
            let curve = block_curve_in(stock.take(), design, node.spans(), block)?;
            curves.push(curve)?;
        }
        Token::Beside => join_top(curves, stock, Direction::Beside, design.outline)?,
        Token::Above => join_top(curves, stock, Direction::Above, design.outline)?,
    }
    Ok(())
}

/// Gives the curves of the last measurement back.
fn clear(curves: &mut Vec<Curve>, stock: &mut Stock) -> Result<(), NoMemory>
    ensures { OnOk result (curves.new.items ≡ []) }
{
    while let Some(curve) = curves.pop() {
        stock.keep(curve)?;
    }
    Ok(())
}

/// Fills the list with the curves of the items of a subproblem, the last on top.
pub fn item_curves(
    curves: &mut Vec<Curve>,
    stock: &mut Stock,
    design: &Design,
    node: &Node,
) -> Result<(), NoMemory>
    requires { IsSubproblem design.now node.now }
    ensures { OnOk result (AreItemCurves design.now node.now curves.new.items) }
{
    clear(curves, stock)?;
    for token in node.tokens() {
        step(curves, stock, *token, design, node)?;
    }
    Ok(())
}

/// Adds the curve of a block that the tokens do not have.
#[tactic(auto, using(sf_bound::proofs::Spans::curve_spans))]
fn push_unused(
    curves: &mut Vec<Curve>,
    stock: &mut Stock,
    design: &Design,
    node: &Node,
    block: u16,
    used: bool,
) -> Result<(), NoMemory>
    requires subproblem { IsSubproblem design.now node.now }
    requires inside { block < length design.now.blocks }
    requires used { used ≡ not (is_unused block node.now.tokens) }
    ensures { OnOk result (AddsUnused design.now node.now block curves.old.items curves.new.items) }
{
    if !used {
        let curve = block_curve_in(stock.take(), design, node.spans(), block)?;
        curves.push(curve)?;
    }
    Ok(())
}

/// Fills the list with the curves of the items and of the unused blocks.
pub fn group_curves(
    curves: &mut Vec<Curve>,
    stock: &mut Stock,
    alloc: Global,
    design: &Design,
    node: &Node,
) -> Result<(), NoMemory>
    requires { IsSubproblem design.now node.now }
    ensures { OnOk result (AreGroupCurves design.now node.now curves.new.items) }
{
    item_curves(curves, stock, design, node)?;
    if node.is_complete() {
        return Ok(());
    }
    let blocks = design.block_count();
    let used = used_blocks(alloc, usize::from(blocks), node.tokens())?;
    for block in 0..blocks {
        push_unused(curves, stock, design, node, block, used[usize::from(block)])?;
    }
    Ok(())
}
