//! The curve of a whole expression.

ghost use Rattle.std.specs.Prelude.{◌≡◌, length, IfOk};
ghost use Rattle.sf_model.specs.Tree.{tree_of};
ghost use Rattle.sf_polish.specs.Normal.{IsNormal};
ghost use Rattle.sf_polish.specs.Postfix.{postfix};
ghost use Rattle.sf_curves.specs.Choices.{AreSpans, IsRootCurve};
ghost use Rattle.sf_curves.specs.Forms.{form_of, IsCurveTree};

use crate::curve::Curve;
use crate::curve_tree::{CurveTree, curve_tree};
use sf_model::{Design, Plan, Shapes};
use sf_polish::{Expr, Token, Tokens, plan_of, without_shapes};
use std::alloc::{AllocError as NoMemory, Global};

/// A plan with these tokens, in no shapes.
fn plan_without_shapes(alloc: Global, blocks: u16, tokens: &[Token]) -> Result<Plan, NoMemory>
    requires { IsNormal blocks tokens.now }
    ensures { IfOk result (λ plan. postfix (tree_of plan) ≡ tokens.now) }
{
    let tokens = Vec::from_slice(alloc, tokens)?;
    let shapes = without_shapes(alloc, blocks)?;
    let expr = Expr {
        tokens: Tokens::from_vec(tokens),
        shapes: Shapes::from_vec(shapes),
    };
    plan_of(alloc, &expr)
}

/// The curves of all parts of an expression.
pub(crate) fn curve_tree_of(
    alloc: Global,
    design: &Design,
    tokens: &[Token],
    spans: &[(u16, u16)],
) -> Result<CurveTree, NoMemory>
    requires normal { IsNormal (length design.now.blocks) tokens.now }
    requires spans { AreSpans design.now spans.now }
    ensures curves { IfOk result (IsCurveTree design.now spans.now) }
    ensures form { IfOk result (λ tree. postfix (form_of tree) ≡ tokens.now) }
{
    let plan = plan_without_shapes(alloc, design.block_count(), tokens)?;
    curve_tree(alloc, design, spans, &plan)
}

/// The curve of a whole expression, whose blocks take any shape from their spans. A point stands for a
/// size, not for a plan: `trace` gives a plan of it.
pub fn root_curve(
    alloc: Global,
    design: &Design,
    tokens: &[Token],
    spans: &[(u16, u16)],
) -> Result<Curve, NoMemory>
    requires normal { IsNormal (length design.now.blocks) tokens.now }
    requires spans { AreSpans design.now spans.now }
    ensures { IfOk result (IsRootCurve design.now tokens.now spans.now) }
{
    let tree = curve_tree_of(alloc, design, tokens, spans)?;
    Ok(tree.into_curve())
}
