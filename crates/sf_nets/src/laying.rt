//! Where the blocks of a subproblem lie in its items.

ghost use Rattle.std.specs.Prelude.{◌≡◌, ◌≤◌, ◌-◌, ◌++◌, length, map, take, drop, All, OnOk};
ghost use Rattle.sf_node.specs.Children.{IsSubproblem};
ghost use Rattle.sf_standard.specs.Operands.{HasOperands};
ghost use Rattle.sf_standard.specs.Hull.{extent_in};
ghost use Rattle.sf_bound.specs.Only.{Tells};
ghost use Rattle.sf_nets.specs.Layout.{joined_extent, moved, reseated, own_seat};
ghost use Rattle.sf_nets.specs.Layout.{JoinsTop, Lays, AreSeated};
ghost use Rattle.sf_nets.specs.Layout.{AreModest, IsModestExtent, IsModestOffset};

use crate::layout::{Held, Seat};
use sf_curves::Direction;
use sf_model::Design;
use sf_node::Node;
use sf_polish::Token;
use sf_standard::{Extent, Offset};
use std::alloc::AllocError as NoMemory;

/// The sides of two joined items.
pub fn joined_extent(way: Direction, first: Extent, second: Extent) -> Extent
    requires first { IsModestExtent first }
    requires second { IsModestExtent second }
    ensures { result ≡ joined_extent way first second }
{
    match way {
        Direction::Beside => Extent {
            least_w: first.least_w + second.least_w,
            most_w: first.most_w + second.most_w,
            least_h: first.least_h.max(second.least_h),
            most_h: first.most_h.max(second.most_h),
        },
        Direction::Above => Extent {
            least_w: first.least_w.max(second.least_w),
            most_w: first.most_w.max(second.most_w),
            least_h: first.least_h + second.least_h,
            most_h: first.most_h + second.most_h,
        },
    }
}

/// Where a block of the right or upper item lies after both are joined.
fn moved(way: Direction, by: Extent, offset: Offset) -> Offset
    requires by { IsModestExtent by }
    requires offset { IsModestOffset offset }
    ensures { result ≡ moved way by offset }
{
    match way {
        Direction::Beside => Offset {
            least_x: by.least_w + offset.least_x,
            most_x: by.most_w + offset.most_x,
            ..offset
        },
        Direction::Above => Offset {
            least_y: by.least_h + offset.least_y,
            most_y: by.most_h + offset.most_y,
            ..offset
        },
    }
}

/// Moves the seats from a place on into the item before theirs.
fn shift(way: Direction, seats: &mut Vec<Seat>, start: usize, item: usize, by: Extent)
    requires start { start ≤ length seats.old.items }
    requires by { IsModestExtent by }
    requires offsets { All (λ s. IsModestOffset s.offset) seats.old.items }
    ensures { seats.new.items
        ≡ take start seats.old.items ++ map (reseated item (moved way by)) (drop start seats.old.items) }
{
    for place in start..seats.len() {
        seats[place] = Seat {
            item,
            offset: moved(way, by, seats[place].offset),
        };
    }
}

/// Joins the top two items.
fn join(way: Direction, held: &mut Vec<Held>, seats: &mut Vec<Seat>) -> Result<(), NoMemory>
    requires two { 2 ≤ length held.old.items }
    requires modest { AreModest held.old.items seats.old.items }
    ensures { OnOk result (JoinsTop (joined_extent way) (moved way)
        held.old.items held.new.items seats.old.items seats.new.items) }
{
    let second = held.pop().unwrap();
    let first = held.pop().unwrap();
    let start = seats.len() - second.blocks;
    shift(way, seats, start, held.len(), first.extent);
    held.push(Held {
        extent: joined_extent(way, first.extent, second.extent),
        blocks: first.blocks + second.blocks,
    })?;
    Ok(())
}

/// Reads one token: a block pushes an item, an operator joins the top two.
fn lay_token(
    held: &mut Vec<Held>,
    seats: &mut Vec<Seat>,
    extents: &[Extent],
    token: Token,
    design: &Design,
    node: &Node,
) -> Result<(), NoMemory>
    requires extents { Tells (extent_in design.now node.now) (length design.now.blocks) extents.now }
    requires operands { HasOperands (length design.now.blocks) (length held.old.items) token }
    requires modest { AreModest held.old.items seats.old.items }
    ensures { OnOk result (Lays (extent_in design.now node.now) token
        held.old.items held.new.items seats.old.items seats.new.items) }
{
    match token {
        Token::Block(block) => {
            let item = held.len();
            let extent = extents[usize::from(block)];
            seats.push(own_seat(item, block))?;
            held.push(Held { extent, blocks: 1 })?;
            Ok(())
        }
        Token::Beside => join(Direction::Beside, held, seats),
        Token::Above => join(Direction::Above, held, seats),
    }
}

/// The seat of a block that is an item by itself.
fn own_seat(item: usize, block: u16) -> Seat
    ensures { result ≡ own_seat item block }
{
    Seat {
        item,
        offset: Offset {
            block,
            least_x: 0,
            most_x: 0,
            least_y: 0,
            most_y: 0,
        },
    }
}

/// Lays the items of a subproblem out, the last on top.
pub fn lay(
    held: &mut Vec<Held>,
    seats: &mut Vec<Seat>,
    extents: &[Extent],
    design: &Design,
    node: &Node,
) -> Result<(), NoMemory>
    requires subproblem { IsSubproblem design.now node.now }
    requires extents { Tells (extent_in design.now node.now) (length design.now.blocks) extents.now }
    ensures { OnOk result (AreSeated design.now node.now held.new.items seats.new.items) }
{
    held.clear();
    seats.clear();
    for token in node.tokens() {
        lay_token(held, seats, extents, *token, design, node)?;
    }
    Ok(())
}
