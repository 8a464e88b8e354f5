//! Which plans belong to a subproblem.

ghost use Rattle.std.specs.Prelude.{◌≡◌, ◌↔◌, ◌<◌, ◌≤◌, length, IfOk, IsTrue, Contains, slice_range};
ghost use Rattle.sf_model.specs.Legal.{IsLegal, block_count};
ghost use Rattle.sf_model.specs.Tree.{tree_of};
ghost use Rattle.sf_polish.specs.Postfix.{IsSkewed};
ghost use Rattle.sf_node.specs.Children.{IsSubproblem};
ghost use Rattle.sf_node.specs.Spans.{IsInSpan, AreInSpans};
ghost use Rattle.sf_node.specs.Subproblem.{Belongs, BeginsWith};

use crate::node::Node;
use sf_model::{Design, Plan, Shape};
use sf_polish::{Token, expr_of};
use std::alloc::{AllocError as NoMemory, Global};

/// Whether the plan belongs to the subproblem. The time is linear in the tokens and the shapes.
pub fn belongs(alloc: Global, plan: &Plan, node: &Node, design: &Design) -> Result<bool, NoMemory>
    requires subproblem { IsSubproblem design.now node.now }
    requires legal { IsLegal design.now (tree_of plan.now) }
    requires skewed { IsSkewed (tree_of plan.now) }
    ensures belongs { IfOk result (λ b. IsTrue b ↔ Belongs design.now node.now (tree_of plan.now)) }
{
    let expr = expr_of(alloc, plan, design.block_count())?;
    if !begins_with(expr.tokens.as_slice(), node.tokens()) {
        return Ok(false);
    }
    Ok(are_in_spans(design, node, expr.shapes.as_slice()))
}

/// Whether the tokens begin with these.
fn begins_with(tokens: &[Token], begin: &[Token]) -> bool
    ensures { IsTrue result ↔ BeginsWith tokens.now begin.now }
{
    tokens.starts_with(begin)
}

/// Whether the shape of each block, by number, is among those in its span.
fn are_in_spans(design: &Design, node: &Node, shapes: &[Shape]) -> bool
    requires subproblem { IsSubproblem design.now node.now }
    requires one_each { length shapes.now ≡ block_count design.now }
    ensures { IsTrue result ↔ AreInSpans design.now node.now shapes.now }
{
    for (block, shape) in shapes.iter().enumerate() {
        if !is_in_span(design, node, block as u16, *shape) {
            return false;
        }
    }
    true
}

/// Whether the shape is among those in the span of a block.
fn is_in_span(design: &Design, node: &Node, block: u16, shape: Shape) -> bool
    requires subproblem { IsSubproblem design.now node.now }
    requires inside { block < block_count design.now }
    ensures { IsTrue result ↔ IsInSpan design.now node.now block shape }
{
    let (from, to) = node.span(block);
    is_among(design.shapes_of(block), from, to, shape)
}

/// Whether the shape stands at a place from the one on and before the other.
fn is_among(shapes: &[Shape], from: u16, to: u16, shape: Shape) -> bool
    requires order { from ≤ to }
    requires end { to ≤ length shapes.now }
    ensures { IsTrue result ↔ Contains (slice_range shapes.now from to) shape }
{
    shapes[usize::from(from)..usize::from(to)].contains(&shape)
}
