//! The points of a curve that are asked for.

ghost use Rattle.std.specs.Prelude.{◌≡◌, ◌<◌, ◌≤◌, ◌↔◌, [], IsNone, IfSome, MatchOption, All, AllPairs};
ghost use Rattle.sf_curves.specs.Points.{IsSlimmer, IsLeastArea, IsSmaller, IsNarrowest, IsLowest};

use crate::point::{Point, area};

/// The first point that is no higher than the limit.
pub fn first_low_point(points: &[Point], limit: u32) -> Option<Point>
    requires { AllPairs IsSlimmer points.now }
    ensures { MatchOption result (All (λ q. limit < q.h) points.now) (IsNarrowest limit points.now) }
{
    for point in points {
        if point.h <= limit {
            return Some(*point);
        }
    }
    None
}

/// The last point that is no wider than the limit.
pub fn last_narrow_point(points: &[Point], limit: u32) -> Option<Point>
    requires { AllPairs IsSlimmer points.now }
    ensures { MatchOption result (All (λ q. limit < q.w) points.now) (IsLowest limit points.now) }
{
    for back in 0..points.len() {
        let point = points[points.len() - 1 - back];
        if point.w <= limit {
            return Some(point);
        }
    }
    None
}

/// The first point of least area.
pub fn least_area_point(points: &[Point]) -> Option<Point>
    requires { AllPairs IsSlimmer points.now }
    ensures empty { IsNone result ↔ (points.now ≡ []) }
    ensures least { IfSome result (IsLeastArea points.now) }
{
    let mut best = None;
    for point in points {
        best = Some(lesser_of(best, *point));
    }
    best
}

/// The point of less area, the first of two equal ones.
fn lesser_of(best: Option<Point>, point: Point) -> Point
    ensures { IsSmaller best point result }
{
    match best {
        Some(found) if area(found) <= area(point) => found,
        _ => point,
    }
}
