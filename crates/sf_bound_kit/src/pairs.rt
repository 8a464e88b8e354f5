//! What pairs of blocks need.

ghost use Rattle.std.specs.Prelude.{◌≡◌, ◌≤◌, ◌^◌, map, All};
ghost use Rattle.std.specs.List.{list_any};
ghost use Rattle.sf_node.specs.Children.{IsSubproblem};
ghost use Rattle.sf_standard.specs.Standard.{greatest};
ghost use Rattle.sf_bound_kit.specs.Pairs.{each_two, area_of_two, have_no_room, pair_area, pair_fit};

use crate::sides::first_sides;
use sf_model::{Design, MAX, Outline, Shape};
use sf_node::Node;

/// The area that two blocks of these sides need.
fn area_of_two(first: Shape, second: Shape) -> u64
    requires first { (first.w ≤ 2 ^ 20) × (first.h ≤ 2 ^ 20) }
    requires second { (second.w ≤ 2 ^ 20) × (second.h ≤ 2 ^ 20) }
    ensures { result ≡ area_of_two (first, second) }
{
    let beside = u64::from(first.w + second.w) * u64::from(first.h.max(second.h));
    let above = u64::from(first.h + second.h) * u64::from(first.w.max(second.w));
    beside.min(above)
}

/// The greatest area that a block of these sides needs with one of the others, or 0 where there is none.
fn greatest_with(first: Shape, others: &[Shape]) -> u64
    requires first { (first.w ≤ 2 ^ 20) × (first.h ≤ 2 ^ 20) }
    requires others { All (λ s. (s.w ≤ 2 ^ 20) × (s.h ≤ 2 ^ 20)) others.now }
    ensures { result ≡ greatest (map (λ other. area_of_two (first, other)) others.now) }
{
    let mut most = 0;
    for other in others {
        most = most.max(area_of_two(first, *other));
    }
    most
}

/// The greatest area that some two of these need, or 0 where there is one alone.
fn greatest_area(sides: &[Shape]) -> u64
    requires { All (λ s. (s.w ≤ 2 ^ 20) × (s.h ≤ 2 ^ 20)) sides.now }
    ensures { result ≡ greatest (map area_of_two (each_two sides.now)) }
{
    let mut most = 0;
    let mut rest = sides;
    while let Some((first, others)) = rest.split_first() {
        most = most.max(greatest_with(*first, others));
        rest = others;
    }
    most
}

/// Whether two blocks of these sides have no room beside one another, nor above one another.
fn have_no_room(outline: Outline, first: Shape, second: Shape) -> bool
    ensures { result ≡ have_no_room outline (first, second) }
{
    u64::from(outline.w) < u64::from(first.w) + u64::from(second.w)
        && u64::from(outline.h) < u64::from(first.h) + u64::from(second.h)
}

/// Whether a block of these sides has no room with one of the others.
fn any_without_room_with(outline: Outline, first: Shape, others: &[Shape]) -> bool
    ensures { result ≡ list_any (λ other. have_no_room outline (first, other)) others.now }
{
    others
        .iter()
        .any(|other| have_no_room(outline, first, *other))
}

/// Whether some two of these have no room.
fn any_without_room(outline: Outline, sides: &[Shape]) -> bool
    ensures { result ≡ list_any (have_no_room outline) (each_two sides.now) }
{
    let mut rest = sides;
    while let Some((first, others)) = rest.split_first() {
        if any_without_room_with(outline, *first, others) {
            return true;
        }
        rest = others;
    }
    false
}

/// What the area costs at least that some two of the first sixteen blocks need, by their least sides over the
/// shapes of their spans: one lies beside the other or above it. It is 0 with one block.
pub fn pair_area(design: &Design, node: &Node) -> u64
    requires { IsSubproblem design.now node.now }
    ensures { result ≡ pair_area design.now node.now }
{
    let (sides, count) = first_sides(design, node);
    u64::from(design.weights.area) * greatest_area(&sides[..count])
}

/// MAX where some two of the first sixteen blocks have no room in the outline, neither beside nor above one
/// another, by their least sides over the shapes of their spans; else 0.
pub fn pair_fit(design: &Design, node: &Node) -> u64
    requires { IsSubproblem design.now node.now }
    ensures { result ≡ pair_fit design.now node.now }
{
    let (sides, count) = first_sides(design, node);
    if any_without_room(design.outline, &sides[..count]) {
        MAX
    } else {
        0
    }
}
