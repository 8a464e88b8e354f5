//! Values of the bound that were worked out by hand.

ghost use Rattle.std.specs.Prelude.{IfOk, IfSome};
ghost use Rattle.sf_node.specs.Children.{IsSubproblem};
ghost use Rattle.sf_bounds.specs.Memory.{IsMemoryOf};

use crate::nodes::node_at;
use sf_bound::{Bounds, solve};
use sf_bounds::{Room, Standard};
use sf_model::{BlockList, Design, MAX, NetList, Outline, PadList, Pin, Weights};
use sf_node::{Node, Part};
use sf_test_designs::{
    FLAT, NARROW, SQUARE, WIDE, bare, block, block_of, net, pad, three_shapes, two_squares,
};
use std::alloc::{AllocError, Global};

/// The two halves of a subproblem by its first wide span.
fn halves(design: &Design, node: &Node) -> Result<Option<(Node, Node)>, AllocError>
    requires { IsSubproblem design.now node.now }
    ensures { IfOk result (λ found. IfSome found (λ pair.
        IsSubproblem design.now pair.0 × IsSubproblem design.now pair.1)) }
{
    let Some(block) = node.first_wide() else {
        return Ok(None);
    };
    let pair = node.split_children(design, block)?;
    Ok(Some(pair))
}

/// The values of two subproblems.
fn values_of(design: &Design, room: &mut Room, pair: &(Node, Node)) -> Result<[u64; 2], AllocError>
    requires first { IsSubproblem design.now pair.now.0 }
    requires second { IsSubproblem design.now pair.now.1 }
    requires serves { IsMemoryOf design.now room.old }
    ensures serves { IsMemoryOf design.now room.new }
{
    let first = Standard.bound(design, &pair.0, room)?;
    let second = Standard.bound(design, &pair.1, room)?;
    Ok([first, second])
}

/// The values of the two halves of a subproblem, and of the halves of the second one.
fn values_of_halves(
    design: &Design,
    room: &mut Room,
    whole: &Node,
) -> Result<Option<[u64; 4]>, AllocError>
    requires whole { IsSubproblem design.now whole.now }
    requires serves { IsMemoryOf design.now room.old }
    ensures serves { IsMemoryOf design.now room.new }
{
    let Some(pair) = halves(design, whole)? else {
        return Ok(None);
    };
    let [first, second] = values_of(design, room, &pair)?;
    let Some(pair) = halves(design, &pair.1)? else {
        return Ok(None);
    };
    let [third, fourth] = values_of(design, room, &pair)?;
    Ok(Some([first, second, third, fourth]))
}

/// Four blocks of 2 by 2, with wire weight 1: an outer net of the first and the third, an inner one of the
/// second and the third, and one of the fourth and a pad, of these weights.
fn four_squares(alloc: Global, outer: u8, inner: u8, padded: u8) -> Result<Design, AllocError> {
    let blocks = vec![in alloc;
        block(alloc, SQUARE)?,
        block(alloc, SQUARE)?,
        block(alloc, SQUARE)?,
        block(alloc, SQUARE)?,
    ]?;
    let pad = pad(alloc, 10, 0)?;
    let nets = vec![in alloc;
        net(alloc, Pin::Block(0), Pin::Block(2), outer)?,
        net(alloc, Pin::Block(1), Pin::Block(2), inner)?,
        net(alloc, Pin::Block(3), Pin::Pad(0), padded)?,
    ]?;
    Design::new(
        alloc,
        BlockList::from_vec(blocks),
        PadList::from_vec(vec![in alloc; pad]?),
        NetList::from_vec(nets),
        WIDE,
        Weights { area: 1, wire: 1 },
    )
}

/// Places of children, and the values there with weights of 1: of no token; 0 1 *; 0 1 * 2 *; 0 1 * 2 +;
/// 0 1 + 2 +; 0 1 * 2 * 3 *; 0 1 * 2.
const ITEMS: [(&[usize], u64); 7] = [
    (&[], 26),
    (&[0, 0, 0], 26),
    (&[0, 0, 0, 0, 0], 30),
    (&[0, 0, 0, 0, 1], 34),
    (&[0, 0, 1, 0, 1], 30),
    (&[0, 0, 0, 0, 0, 0, 0], 36),
    (&[0, 0, 0, 0], 26),
];

/// The same with the weights 0, 2 and 3: of 0 1 * 2 +; 0 1 * 2 * 3 *.
const WEIGHTED: [(&[usize], u64); 2] = [(&[0, 0, 0, 0, 1], 42), (&[0, 0, 0, 0, 0, 0, 0], 48)];

/// The value of the subproblem that is reached over the children at these places.
fn value_at(
    alloc: Global,
    design: &Design,
    room: &mut Room,
    places: &[usize],
) -> Result<u64, AllocError>
    requires serves { IsMemoryOf design.now room.old }
    ensures serves { IsMemoryOf design.now room.new }
{
    let node = node_at(alloc, design, places)?;
    Standard.bound(design, &node, room)
}

/// Whether the subproblems over these places have these values, one after another in one room.
pub fn have_values(
    alloc: Global,
    design: &Design,
    room: &mut Room,
    rows: &[(&[usize], u64)],
) -> Result<bool, AllocError>
    requires serves { IsMemoryOf design.now room.old }
    ensures serves { IsMemoryOf design.now room.new }
{
    for (places, value) in rows {
        if value_at(alloc, design, room, places)? != *value {
            return Ok(false);
        }
    }
    Ok(true)
}

/// Of one block of three shapes: the root, and the complete subproblem.
const THREE_SHAPES: [(&[usize], u64); 2] = [(&[], 24), (&[0], 194)];

/// The values of the halves, if these two have theirs before.
fn halves_of_three(alloc: Global) -> Result<Option<[u64; 4]>, AllocError> {
    let design = three_shapes(alloc)?;
    let mut room = Standard.room(alloc);
    if !have_values(alloc, &design, &mut room, &THREE_SHAPES)? {
        return Ok(None);
    }
    let whole = node_at(alloc, &design, &[0])?;
    values_of_halves(&design, &mut room, &whole)
}

/// The bound of these two before that of the halves.
#[test]
fn measures(rt: HostRuntime) {
    assert!(rt; halves_of_three(rt.alloc()) == Ok(Some([234, 194, 204, 196])));
}

/// Whether the subproblems of four squares with nets of these weights have these values.
fn squares_have(
    alloc: Global,
    weights: [u8; 3],
    rows: &[(&[usize], u64)],
) -> Result<bool, AllocError> {
    let design = four_squares(alloc, weights[0], weights[1], weights[2])?;
    have_values(alloc, &design, &mut Standard.room(alloc), rows)
}

/// Nets of blocks in one item, in two, and with a pad.
#[test]
fn measures_items(rt: HostRuntime) {
    assert!(rt; squares_have(rt.alloc(), [1, 1, 1], &ITEMS) == Ok(true));
}

/// The value of `0 1 *` of two squares and a net of both with this weight.
fn row_value(alloc: Global, weight: u8) -> Result<u64, AllocError> {
    let design = two_squares(alloc, weight)?;
    value_at(alloc, &design, &mut Standard.room(alloc), &[0, 0, 0])
}

/// A net counts as often as its weight says.
#[test]
fn measures_one_weight(rt: HostRuntime) {
    for (weight, value) in [(1u8, 12u64), (3, 20), (0, 8)] {
        assert!(rt; row_value(rt.alloc(), weight) == Ok(value), "{weight}");
    }
}

/// So do several nets, in an incomplete subproblem and in a complete one.
#[test]
fn measures_weights(rt: HostRuntime) {
    assert!(rt; squares_have(rt.alloc(), [0, 2, 3], &WEIGHTED) == Ok(true));
}

/// The area, the range, the pair, the hull and the full value, measured at once, and the hull by itself.
fn values_of_parts(design: &Design, node: &Node, room: &mut Room) -> Result<[u64; 6], AllocError>
    requires node { IsSubproblem design.now node.now }
    requires serves { IsMemoryOf design.now room.old }
    ensures serves { IsMemoryOf design.now room.new }
{
    let (full, parts) = Standard.all_values(design, node, room)?;
    let hull = Standard.part(design, node, Part::Hull, room)?;
    Ok([parts.area, parts.range, parts.pair, parts.hull, full, hull])
}

/// Of one block of three shapes: the root, the complete subproblem, and that with the shape 1 by 4 alone.
const PARTS: [[u64; 6]; 3] = [
    [4, 24, 4, 4, 24, 4],
    [4, 24, 4, 194, 194, 194],
    [4, 44, 4, 234, 234, 234],
];

/// The parts of these three.
fn parts_of_three(alloc: Global) -> Result<Option<[[u64; 6]; 3]>, AllocError> {
    let design = three_shapes(alloc)?;
    let mut room = Standard.room(alloc);
    let start = values_of_parts(&design, &Node::root(alloc, &design)?, &mut room)?;
    let node = node_at(alloc, &design, &[0])?;
    let whole = values_of_parts(&design, &node, &mut room)?;
    let Some(pair) = halves(&design, &node)? else {
        return Ok(None);
    };
    let high = values_of_parts(&design, &pair.0, &mut room)?;
    Ok(Some([start, whole, high]))
}

/// Each part by itself, and one that is asked for alone.
#[test]
fn measures_parts(rt: HostRuntime) {
    assert!(rt; parts_of_three(rt.alloc()) == Ok(Some(PARTS)));
}

/// A block of 2 by 3 or 3 by 2 in an outline of 2 by 2, with this wire weight.
fn too_large(alloc: Global, wire: u16) -> Result<Design, AllocError> {
    let block = block_of(alloc, vec![in alloc; NARROW, FLAT]?)?;
    let outline = Outline { w: 2, h: 2 };
    bare(alloc, vec![in alloc; block]?, outline, wire)
}

/// Whether a subproblem has a solution, where it is solved.
fn has_solution(alloc: Global, design: &Design, node: &Node) -> Result<Option<bool>, AllocError>
    requires { IsSubproblem design.now node.now }
{
    if !node.is_solved(design) {
        return Ok(None);
    }
    let found = solve(alloc, design, node)?;
    Ok(Some(found.is_some()))
}

/// Whether the one complete subproblem has a solution where only areas count, and its value.
fn solved_by_area(alloc: Global) -> Result<(Option<bool>, u64), AllocError> {
    let design = too_large(alloc, 0)?;
    let whole = node_at(alloc, &design, &[0])?;
    let solved = has_solution(alloc, &design, &whole)?;
    let value = Standard.bound(&design, &whole, &mut Standard.room(alloc))?;
    Ok((solved, value))
}

/// Where only areas count and no shape fits, the one complete subproblem has no solution.
#[test]
fn solves_no_areas(rt: HostRuntime) {
    assert!(rt; solved_by_area(rt.alloc()) == Ok((Some(false), MAX)));
}

/// Whether the complete subproblem and its halves have a solution where wires count.
fn solved_by_wire(alloc: Global) -> Result<Option<[Option<bool>; 3]>, AllocError> {
    let design = too_large(alloc, 1)?;
    let node = node_at(alloc, &design, &[0])?;
    let whole = has_solution(alloc, &design, &node)?;
    let Some(pair) = halves(&design, &node)? else {
        return Ok(None);
    };
    let high = has_solution(alloc, &design, &pair.0)?;
    let wide = has_solution(alloc, &design, &pair.1)?;
    Ok(Some([whole, high, wide]))
}

/// Where wires count it is not solved, and neither shape by itself has a solution.
#[test]
fn solves_no_wires(rt: HostRuntime) {
    assert!(rt; solved_by_wire(rt.alloc()) == Ok(Some([None, Some(false), Some(false)])));
}
