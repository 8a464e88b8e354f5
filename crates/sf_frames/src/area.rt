//! The area that disjoint rooms need, by their curves.

ghost use Rattle.std.specs.Prelude.{◌≡◌, ◌≤◌, [], length, MatchOption, All, Any};
ghost use Rattle.sf_frames.specs.AreaPart.{IsAreaPart};
ghost use Rattle.sf_frames.specs.Least.{AllSmall};

use crate::least::least_of;
use sf_curves::Curve;

/// The area that disjoint rooms of these curves need at least; none where one has no size.
pub fn area_part(curves: &[Curve]) -> Option<u64>
    requires few { length curves.now ≤ 1000 }
    requires small { All AllSmall curves.now }
    ensures { MatchOption result (Any (λ c. c ≡ []) curves.now) (IsAreaPart curves.now) }
{
    let mut sum = 0u64;
    let mut w = 0;
    let mut h = 0;
    for curve in curves {
        let room = least_of(curve.points())?;
        sum += room.area;
        w = room.w.max(w);
        h = room.h.max(h);
    }
    Some(sum.max(u64::from(w) * u64::from(h)))
}
