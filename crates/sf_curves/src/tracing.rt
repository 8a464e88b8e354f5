//! A plan of a size on the curve of an expression.

ghost use Rattle.std.specs.Prelude.{◌≡◌, ◌≤◌, length, All, AllPairs, Any, Contains, IfOk};
ghost use Rattle.sf_model.specs.Tree.{tree_of};
ghost use Rattle.sf_model.specs.declared.parts.Shape.{Shape};
ghost use Rattle.sf_polish.specs.Normal.{IsNormal};
ghost use Rattle.sf_curves.specs.Choices.{AreSpans, IsOnRootCurve, IsTraceOf, size_of};
ghost use Rattle.sf_curves.specs.Forms.{curve_of, IsTraced, IsChosen, IsSized, IsNarrowestOn, IsLowestOn};
ghost use Rattle.sf_curves.specs.Points.{IsSlimmer, IsNarrowest, IsLowest, IsNoLarger, IsJoinOf};
ghost use Rattle.sf_curves.specs.Points.{beside_size, above_size};

use crate::curve::Curve;
use crate::curve_tree::CurveTree;
use crate::point::Point;
use crate::root::curve_tree_of;
use sf_model::{Design, Plan};
use sf_polish::{Expr, Token, expr_of};
use std::alloc::{AllocError as NoMemory, Global};

/// The narrowest point that is no higher than the limit, where there is one.
fn narrowest_point(curve: &Curve, limit: u32) -> Point
    requires { Any (λ q. q.h ≤ limit) curve.now }
    ensures narrowest { IsNarrowest limit curve.now result }
    ensures falls { AllPairs IsSlimmer curve.now }
{
    let Some(point) = curve.narrowest(limit) else {
        unreachable!()
    };
    point
}

/// The lowest point that is no wider than the limit, where there is one.
fn lowest_point(curve: &Curve, limit: u32) -> Point
    requires { Any (λ q. q.w ≤ limit) curve.now }
    ensures lowest { IsLowest limit curve.now result }
    ensures falls { AllPairs IsSlimmer curve.now }
{
    let Some(point) = curve.lowest(limit) else {
        unreachable!()
    };
    point
}

/// The points of two rooms side by side for a point of their curve: of each its narrowest that is no higher.
fn beside_points(curve: &Curve, left: &Curve, right: &Curve, point: Point) -> (Point, Point)
    requires joined { All (IsJoinOf beside_size left.now right.now) curve.now }
    requires on_curve { Contains curve.now point }
    ensures left { IsNarrowestOn left.now point.h result.0 }
    ensures right { IsNarrowestOn right.now point.h result.1 }
    ensures small { (x : Shape) (y : Shape) → IsNoLarger x result.0 → IsNoLarger y result.1
        → IsNoLarger (beside_size x y) point }
{
    (
        narrowest_point(left, point.h),
        narrowest_point(right, point.h),
    )
}

/// The points of two rooms one above the other for a point of their curve: of each its lowest that is no
/// wider.
fn above_points(curve: &Curve, lower: &Curve, upper: &Curve, point: Point) -> (Point, Point)
    requires joined { All (IsJoinOf above_size lower.now upper.now) curve.now }
    requires on_curve { Contains curve.now point }
    ensures lower { IsLowestOn lower.now point.w result.0 }
    ensures upper { IsLowestOn upper.now point.w result.1 }
    ensures small { (x : Shape) (y : Shape) → IsNoLarger x result.0 → IsNoLarger y result.1
        → IsNoLarger (above_size x y) point }
{
    (lowest_point(lower, point.w), lowest_point(upper, point.w))
}

/// The plan of a point on the curve of a tree.
fn sized_plan(alloc: Global, tree: &CurveTree, point: Point) -> Result<Plan, NoMemory>
    requires traced { IsTraced tree.now }
    requires on_curve { Contains (curve_of tree.now) point }
    ensures chosen { IfOk result (λ plan. IsChosen tree.now (tree_of plan)) }
    ensures size { IfOk result (λ plan. IsNoLarger (size_of (tree_of plan)) point) }
    ensures sized { IfOk result (λ plan. IsSized tree.now (tree_of plan) point) }
{
    match tree {
        CurveTree::Leaf(block, _) => Ok(Plan::Leaf(*block, point)),
        CurveTree::Beside(curve, left, right) => {
            let points = beside_points(curve, left.curve(), right.curve(), point);
            let left = sized_plan(alloc, left, points.0)?;
            let right = sized_plan(alloc, right, points.1)?;
            Ok(Plan::Beside(Box::new(alloc, left)?, Box::new(alloc, right)?))
        }
        CurveTree::Above(curve, lower, upper) => {
            let points = above_points(curve, lower.curve(), upper.curve(), point);
            let lower = sized_plan(alloc, lower, points.0)?;
            let upper = sized_plan(alloc, upper, points.1)?;
            Ok(Plan::Above(Box::new(alloc, lower)?, Box::new(alloc, upper)?))
        }
    }
}

/// The plan of a point on the root curve (Stockmeyer 1983): of two rooms side by side each takes its
/// narrowest point that is no higher than the point of both, of two rooms one above the other each its
/// lowest that is no wider.
pub fn trace(
    alloc: Global,
    design: &Design,
    tokens: &[Token],
    spans: &[(u16, u16)],
    point: Point,
) -> Result<Expr, NoMemory>
    requires normal { IsNormal (length design.now.blocks) tokens.now }
    requires spans { AreSpans design.now spans.now }
    requires on_curve { IsOnRootCurve design.now tokens.now spans.now point }
    ensures traced { IfOk result (IsTraceOf design.now tokens.now spans.now point) }
    ensures tokens { IfOk result (λ expr. expr.tokens ≡ tokens.now) }
    ensures one_each { IfOk result (λ expr. length expr.shapes ≡ length design.now.blocks) }
{
    let tree = curve_tree_of(alloc, design, tokens, spans)?;
    let plan = sized_plan(alloc, &tree, point)?;
    expr_of(alloc, &plan, design.block_count())
}
