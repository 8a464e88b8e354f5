//! The sizes of two rooms that are joined, side by side or one above the other.

ghost use Rattle.std.specs.Prelude.{◌≡◌, ◌<◌, length, AllPairs, OnOk};
ghost use Rattle.sf_curves.specs.Combining.{point_after, shared_side, by_width};
ghost use Rattle.sf_curves.specs.Direction.{size_in};
ghost use Rattle.sf_curves.specs.Points.{IsSlimmer, IsCombination, AddsWithin};

use crate::direction::Direction;
use crate::point::Point;
use sf_model::Outline;
use std::alloc::AllocError as NoMemory;

/// The point after `i` others: side by side from the highest room on, one above the other from the widest on.
#[inline(always)]
fn point_at(points: &[Point], i: usize, direction: Direction) -> Point
    requires { i < length points.now }
    ensures { result ≡ point_after direction points.now i }
{
    match direction {
        Direction::Beside => points[i],
        Direction::Above => points[points.len() - 1 - i],
    }
}

/// The side of a room of which the joined room has the greater one.
#[inline(always)]
fn shared_side(room: Point, direction: Direction) -> u32
    ensures { result ≡ shared_side direction room }
{
    match direction {
        Direction::Beside => room.h,
        Direction::Above => room.w,
    }
}

/// Adds the size of two joined rooms, if the outline holds it.
#[inline(always)]
fn push_size(
    sizes: &mut Vec<Point>,
    first: Point,
    second: Point,
    direction: Direction,
    outline: Outline,
) -> Result<(), NoMemory>
    ensures { OnOk result
        (AddsWithin outline sizes.old.items sizes.new.items (size_in direction first second)) }
{
    let (w, h) = match direction {
        Direction::Beside => (
            u64::from(first.w) + u64::from(second.w),
            u64::from(first.h.max(second.h)),
        ),
        Direction::Above => (
            u64::from(first.w.max(second.w)),
            u64::from(first.h) + u64::from(second.h),
        ),
    };
    if w <= u64::from(outline.w) && h <= u64::from(outline.h) {
        sizes.push(Point {
            w: w as u32,
            h: h as u32,
        })?;
    }
    Ok(())
}

/// Puts the sizes in the order of their widths.
#[inline(always)]
fn order(sizes: &mut Vec<Point>, direction: Direction)
    ensures { sizes.new.items ≡ by_width direction sizes.old.items }
{
    match direction {
        Direction::Beside => {}
        Direction::Above => sizes.reverse(),
    }
}

/// Fills the list with the sizes of a room of the first curve, the left or the lower one, joined with a room
/// of the second: of two rooms the one with the greater shared side is exchanged for its next, in which this
/// side is less. Inlined where the direction is known, so each direction has a loop of its own.
#[inline(always)]
pub fn combine(
    sizes: &mut Vec<Point>,
    first: &[Point],
    second: &[Point],
    direction: Direction,
    outline: Outline,
) -> Result<(), NoMemory>
    requires first_falls { AllPairs IsSlimmer first.now }
    requires second_falls { AllPairs IsSlimmer second.now }
    ensures falls { OnOk result (AllPairs IsSlimmer sizes.new.items) }
    ensures combines { OnOk result
        (IsCombination (size_in direction) outline first.now second.now sizes.new.items) }
{
    sizes.clear();
    let mut i = 0;
    let mut j = 0;
    while i < first.len() && j < second.len() {
        let one = point_at(first, i, direction);
        let other = point_at(second, j, direction);
        push_size(sizes, one, other, direction, outline)?;
        let here = shared_side(one, direction);
        let there = shared_side(other, direction);
        if here > there {
            i += 1;
        } else if here < there {
            j += 1;
        } else {
            i += 1;
            j += 1;
        }
    }
    order(sizes, direction);
    Ok(())
}
