//! The split that leads to a size of a set: it is searched again, so that a curve keeps its points alone.

ghost use Rattle.std.specs.Prelude.{◌≡◌, ◌≢◌, ◌<◌, length, All, Contains, MatchOption};
ghost use Rattle.sf_curves.specs.Direction.{size_in};
ghost use Rattle.sf_subsets.specs.Gathering.{IsSplitJoin, IsSplitOf};
ghost use Rattle.sf_curves.specs.declared.direction.Direction.{Direction};

use sf_curves::{Curve, Direction, Point};

/// Two sets into which a set splits, of which `part` is the second, and a point of the curve of each whose
/// rooms are joined in this direction.
#[derive(Clone, Copy)]
pub struct Split {
    pub part: usize,
    pub first: Point,
    pub second: Point,
    pub direction: Direction,
}

/// A point of each of two curves whose rooms, joined in this direction, have a size.
#[derive(Clone, Copy)]
struct Joint {
    first: Point,
    second: Point,
    direction: Direction,
}

/// The direction in which the two rooms have this size together.
fn direction_to(first: Point, second: Point, size: Point) -> Option<Direction>
    ensures { MatchOption result ((d : Direction) → size_in d first second ≢ size)
        (λ d. size_in d first second ≡ size) }
{
    let w = u64::from(first.w) + u64::from(second.w);
    let h = u64::from(first.h) + u64::from(second.h);
    if w == u64::from(size.w) && first.h.max(second.h) == size.h {
        return Some(Direction::Beside);
    }
    if first.w.max(second.w) == size.w && h == u64::from(size.h) {
        return Some(Direction::Above);
    }
    None
}

/// A room of a curve that has this size together with the first room.
fn joint_with(first: Point, right: &[Point], size: Point) -> Option<Joint>
    ensures { MatchOption result
        (All (λ q. (d : Direction) → size_in d first q ≢ size) right.now)
        (λ j. (j.first ≡ first) × Contains right.now j.second × (size_in j.direction first j.second ≡ size)) }
{
    for second in right {
        if let Some(direction) = direction_to(first, *second, size) {
            return Some(Joint {
                first,
                second: *second,
                direction,
            });
        }
    }
    None
}

/// Rooms of two curves that have this size together.
fn joint_of(left: &[Point], right: &[Point], size: Point) -> Option<Joint>
    ensures { MatchOption result
        (All (λ p. All (λ q. (d : Direction) → size_in d p q ≢ size) right.now) left.now)
        (λ j. Contains left.now j.first × Contains right.now j.second
        × (size_in j.direction j.first j.second ≡ size)) }
{
    for first in left {
        if let Some(joint) = joint_with(*first, right, size) {
            return Some(joint);
        }
    }
    None
}

/// A split of the set that leads to the size, if there is one.
pub fn split_of(curves: &[Curve], set: usize, size: Point) -> Option<Split>
    requires some { 0 < set }
    requires inside { set < length curves.now }
    ensures { MatchOption result (¬ IsSplitJoin curves.now set size) (IsSplitOf curves.now set size) }
{
    let mut part = (set - 1) & set;
    while part > 0 {
        if let Some(joint) = joint_of(curves[set - part].points(), curves[part].points(), size) {
            return Some(Split {
                part,
                first: joint.first,
                second: joint.second,
                direction: joint.direction,
            });
        }
        part = (part - 1) & set;
    }
    None
}
