//! The one plan of a complete subproblem whose spans have one place each.

ghost use Rattle.std.specs.Prelude.{◌≡◌, ◌<◌, length, not, slice_index_or, IfOk, IsTrue};
ghost use Rattle.std.specs.List.{list_all};
ghost use Rattle.sf_node.specs.Children.{IsSubproblem};
ghost use Rattle.sf_node.specs.Subproblem.{is_complete, is_wide};
ghost use Rattle.sf_bound.specs.Cheapest.{IsSolution};
ghost use Rattle.sf_bound.specs.Only.{Tells, first_shape};

use sf_model::{Design, Shape, Shapes};
use sf_node::Node;
use sf_place::fits;
use sf_polish::{Expr, Tokens, plan_of};
use sf_wire::cost;
use std::alloc::{AllocError as NoMemory, Global};

/// The first shape in the span of a block.
#[tactic(auto, using(crate::proofs::Spans::span_count))]
fn first_shape(design: &Design, node: &Node, block: u16) -> Shape
    requires subproblem { IsSubproblem design.now node.now }
    requires inside { block < length design.now.blocks }
    ensures { result ≡ first_shape design.now node.now block }
{
    let (from, _) = node.span(block);
    shape_at(design.shapes_of(block), from)
}

/// The shape at a place.
fn shape_at(shapes: &[Shape], place: u16) -> Shape
    requires { place < length shapes.now }
    ensures { result ≡ slice_index_or shapes.now place (record { w = 0; h = 0 }) }
{
    shapes[usize::from(place)]
}

/// The first shape in the span of each block.
fn first_shapes(alloc: Global, design: &Design, node: &Node) -> Result<Vec<Shape>, NoMemory>
    requires { IsSubproblem design.now node.now }
    ensures { IfOk result (λ v. Tells (first_shape design.now node.now) (length design.now.blocks) v.items) }
{
    let mut shapes = Vec::new(alloc);
    for block in 0..design.block_count() {
        shapes.push(first_shape(design, node, block))?;
    }
    Ok(shapes)
}

/// The tokens of a subproblem, with the first shape of each span.
fn first_expr(alloc: Global, design: &Design, node: &Node) -> Result<Expr, NoMemory>
    requires { IsSubproblem design.now node.now }
    ensures tokens { IfOk result (λ e. e.tokens ≡ node.now.tokens) }
    ensures shapes { IfOk result (λ e.
        Tells (first_shape design.now node.now) (length design.now.blocks) e.shapes) }
{
    let tokens = Vec::from_slice(alloc, node.tokens())?;
    let shapes = first_shapes(alloc, design, node)?;
    Ok(Expr {
        tokens: Tokens::from_vec(tokens),
        shapes: Shapes::from_vec(shapes),
    })
}

/// The one plan of a complete subproblem whose spans are all single, where it fits, and its cost.
pub fn only_plan(
    alloc: Global,
    design: &Design,
    node: &Node,
) -> Result<Option<(Expr, u64)>, NoMemory>
    requires subproblem { IsSubproblem design.now node.now }
    requires complete { IsTrue (is_complete node.now) }
    requires single { IsTrue (list_all (λ span. not (is_wide span)) node.now.spans) }
    ensures { IfOk result (IsSolution design.now node.now) }
{
    let expr = first_expr(alloc, design, node)?;
    let plan = plan_of(alloc, &expr)?;
    if !fits(design.outline, &plan) {
        return Ok(None);
    }
    let cost = cost(alloc, design, &plan)?;
    Ok(Some((expr, cost)))
}
