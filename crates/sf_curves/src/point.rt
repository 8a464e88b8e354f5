//! The points of curves: sizes of rooms.

ghost use Rattle.std.specs.Prelude.{◌≡◌};
ghost use Rattle.sf_curves.specs.Points.{area_of};

use sf_model::Shape;

/// A size of a room, in scaled whole units. A leaf of a plan takes it as the shape of its block.
pub type Point = Shape;

/// Width times height, in squares of scaled whole units.
pub fn area(point: Point) -> u64
    ensures { result ≡ area_of point }
{
    u64::from(point.w) * u64::from(point.h)
}
