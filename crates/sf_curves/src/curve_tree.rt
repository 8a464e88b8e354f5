//! Slicing trees with the curve of each subtree.

ghost use Rattle.std.specs.Prelude.{◌≡◌, ◌<◌, length, AllPairs, IfOk};
ghost use Rattle.sf_model.specs.Tree.{tree_of, HasBlocksBelow};
ghost use Rattle.sf_model.specs.Spans.{shapes_in};
ghost use Rattle.sf_curves.specs.Choices.{AreSpans};
ghost use Rattle.sf_curves.specs.Forms.{form, curve_of, form_of, IsCurveTree};
ghost use Rattle.sf_curves.specs.Points.{IsSlimmer, IsCurveOf};

use crate::curve::Curve;
use crate::point::Point;
use sf_model::{Design, Plan};
use std::alloc::{AllocError as NoMemory, Global};

/// A slicing tree with the curve of each subtree.
#[derive(Drop)]
pub(crate) enum CurveTree {
    Leaf(u16, Curve),
    Beside(Curve, Box<CurveTree>, Box<CurveTree>),
    Above(Curve, Box<CurveTree>, Box<CurveTree>),
}

impl CurveTree {
    /// The curve of the whole tree.
    pub(crate) fn curve(&self) -> &Curve
        ensures { result.now ≡ curve_of self.now }
    {
        match self {
            CurveTree::Leaf(_, curve) => curve,
            CurveTree::Beside(curve, _, _) => curve,
            CurveTree::Above(curve, _, _) => curve,
        }
    }

    /// The same, without the tree.
    pub(crate) fn into_curve(self) -> Curve
        ensures is { result ≡ curve_of self }
        ensures falls { AllPairs IsSlimmer result }
    {
        match self {
            CurveTree::Leaf(_, curve) => curve,
            CurveTree::Beside(curve, _, _) => curve,
            CurveTree::Above(curve, _, _) => curve,
        }
    }
}

/// The curve of a block in its span.
pub fn block_curve(
    alloc: Global,
    design: &Design,
    spans: &[(u16, u16)],
    block: u16,
) -> Result<Curve, NoMemory>
    requires spans { AreSpans design.now spans.now }
    requires inside { block < length design.now.blocks }
    ensures { IfOk result (IsCurveOf design.now.outline (shapes_in design.now spans.now block)) }
{
    block_curve_in(Vec::new(alloc), design, spans, block)
}

/// The same in a list that is at hand.
pub fn block_curve_in(
    list: Vec<Point>,
    design: &Design,
    spans: &[(u16, u16)],
    block: u16,
) -> Result<Curve, NoMemory>
    requires spans { AreSpans design.now spans.now }
    requires inside { block < length design.now.blocks }
    ensures { IfOk result (IsCurveOf design.now.outline (shapes_in design.now spans.now block)) }
{
    let (from, to) = spans[usize::from(block)];
    let shapes = &design.shapes_of(block)[usize::from(from)..usize::from(to)];
    Curve::of_shapes_in(list, shapes, design.outline)
}

/// The curves of all subtrees of a plan; its own shapes don't count.
pub(crate) fn curve_tree(
    alloc: Global,
    design: &Design,
    spans: &[(u16, u16)],
    plan: &Plan,
) -> Result<CurveTree, NoMemory>
    requires spans { AreSpans design.now spans.now }
    requires blocks { HasBlocksBelow (length design.now.blocks) (tree_of plan.now) }
    ensures curves { IfOk result (IsCurveTree design.now spans.now) }
    ensures form { IfOk result (λ tree. form_of tree ≡ form (tree_of plan.now)) }
{
    match plan {
        Plan::Leaf(block, _) => Ok(CurveTree::Leaf(
            *block,
            block_curve(alloc, design, spans, *block)?,
        )),
        Plan::Beside(left, right) => {
            let left = curve_tree(alloc, design, spans, left)?;
            let right = curve_tree(alloc, design, spans, right)?;
            let curve = left.curve().beside(alloc, right.curve(), design.outline)?;
            Ok(CurveTree::Beside(curve, Box::new(alloc, left)?, Box::new(alloc, right)?))
        }
        Plan::Above(lower, upper) => {
            let lower = curve_tree(alloc, design, spans, lower)?;
            let upper = curve_tree(alloc, design, spans, upper)?;
            let curve = lower.curve().above(alloc, upper.curve(), design.outline)?;
            Ok(CurveTree::Above(curve, Box::new(alloc, lower)?, Box::new(alloc, upper)?))
        }
    }
}
