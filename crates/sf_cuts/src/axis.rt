//! Where spots stand along an axis.

ghost use Rattle.std.specs.Prelude.{◌≡◌};
ghost use Rattle.sf_place.specs.Spots.{HasNearCorner};
ghost use Rattle.sf_cuts.specs.Cuts.{begin_on, end_on, side_on};

use sf_model::Spot;

/// An axis along which a placement is cut: from left to right, or from below upward.
#[derive(Clone, Copy)]
pub enum Axis {
    Across,
    Upward,
}

/// Where a spot begins along an axis.
pub fn begin_on(axis: Axis, spot: Spot) -> i64
    ensures { result ≡ begin_on axis spot }
{
    match axis {
        Axis::Across => spot.x,
        Axis::Upward => spot.y,
    }
}

/// The side of a spot along an axis.
pub fn side_on(axis: Axis, spot: Spot) -> u32
    ensures { result ≡ side_on axis spot }
{
    match axis {
        Axis::Across => spot.w,
        Axis::Upward => spot.h,
    }
}

/// Where a spot ends along an axis.
pub fn end_on(axis: Axis, spot: Spot) -> i64
    requires { HasNearCorner spot }
    ensures { result ≡ end_on axis spot }
{
    begin_on(axis, spot) + i64::from(side_on(axis, spot))
}
