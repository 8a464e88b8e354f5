//! What a room of a shape curve takes at least.

ghost use Rattle.std.specs.Prelude.{◌≡◌, [], MatchOption, AllPairs};
ghost use Rattle.sf_curves.specs.Points.{IsSlimmer};
ghost use Rattle.sf_frames.specs.Least.{IsLeastOf, AllSmall};

use sf_curves::{Point, area, least_area_point};

/// The least area, width and height of a curve's points.
#[derive(Clone, Copy)]
pub struct Least {
    pub area: u64,
    pub w: u32,
    pub h: u32,
}

/// The least values of a curve, where it has a point. The first point is the narrowest and the last the
/// lowest.
pub fn least_of(points: &[Point]) -> Option<Least>
    requires falls { AllPairs IsSlimmer points.now }
    requires small { AllSmall points.now }
    ensures { MatchOption result (points.now ≡ []) (IsLeastOf points.now) }
{
    let smallest = least_area_point(points)?;
    let w = points[0].w;
    let h = points[points.len() - 1].h;
    Some(Least {
        area: area(smallest),
        w,
        h,
    })
}
