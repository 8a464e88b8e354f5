//! The row of two joined items.

ghost use Rattle.std.specs.Prelude.{◌≡◌, ◌<◌, ◌≤◌, ◌+◌, ◌*◌, ◌++◌, ℕ, length, map, All, IfOk};
ghost use Rattle.std.specs.List.{range_with_len};
ghost use Rattle.sf_nets.specs.Ends.{IsFitReach};
ghost use Rattle.sf_bounds.specs.Rows.{pushed, pushed_reach, joined_reach, cell_of, joined_cell, cell_at};
ghost use Rattle.sf_bounds.specs.Rows.{AreSums, AreSmall, IsFitCell, IsLonger};

use crate::net_frame::{Cell, Wires};
use sf_curves::Direction;
use sf_nets::{Reach, met, reach_gap, weighed};
use sf_standard::{Extent, Interval};
use std::alloc::AllocError as NoMemory;

/// An interval in the right or upper item, from the corner of both; what no block narrowed stays.
fn pushed(least: u32, most: u32, interval: Interval) -> Interval
    requires { IsFitReach (record { across = interval; upward = interval }) }
    ensures { result ≡ pushed least most interval }
{
    if interval.low < 0 {
        return interval;
    }
    Interval {
        low: interval.low + 2 * i64::from(least),
        high: interval.high + 2 * i64::from(most),
    }
}

/// A reach in the right or upper item, from the corner of both.
fn pushed_reach(direction: Direction, by: Extent, reach: Reach) -> Reach
    requires { IsFitReach reach }
    ensures { result ≡ pushed_reach direction by reach }
{
    match direction {
        Direction::Beside => Reach {
            across: pushed(by.least_w, by.most_w, reach.across),
            ..reach
        },
        Direction::Above => Reach {
            upward: pushed(by.least_h, by.most_h, reach.upward),
            ..reach
        },
    }
}

/// What two joined items share.
pub fn joined_reach(direction: Direction, by: Extent, left: Reach, right: Reach) -> Reach
    requires left { IsFitReach left }
    requires right { IsFitReach right }
    requires moved { IsFitReach (pushed_reach direction by right) }
    ensures is { result ≡ joined_reach direction by left right }
    ensures near { IsFitReach result }
{
    let moved = pushed_reach(direction, by, right);
    met(left, moved)
}

/// The cell of a net after two items are joined, where another tells its part in the items under them.
fn joined_cell(direction: Direction, by: Extent, left: Cell, right: Cell, under: Cell) -> Cell
    requires left { IsFitCell left }
    requires right { IsFitCell right }
    requires under { IsFitCell under }
    requires moved { IsFitReach (pushed_reach direction by right.reach) }
    ensures is { result ≡ cell_of direction by left right under }
    ensures fit { IsFitCell result }
{
    let reach = joined_reach(direction, by, left.reach, right.reach);
    let gap = reach_gap(reach) as u32;
    Cell {
        reach,
        part: under.part.max(gap),
        hull: under.hull.max(gap),
    }
}

/// The sums with one cell more.
fn with_cell(wires: Wires, weight: u8, cell: Cell) -> Wires
    requires cell { IsFitCell cell }
    requires sums { AreSmall 65536 wires }
    ensures at { result.at ≡ wires.at }
    ensures sum { result.sum ≡ wires.sum + weight * cell.part }
    ensures hull { result.hull ≡ wires.hull + weight * cell.hull }
    ensures small { result.sum ≤ wires.sum + 714000000000 }
    ensures hull_small { result.hull ≤ wires.hull + 714000000000 }
{
    Wires {
        at: wires.at,
        sum: wires.sum + weighed(weight, u64::from(cell.part)),
        hull: wires.hull + weighed(weight, u64::from(cell.hull)),
    }
}

/// Puts the row of two joined items at the end, with the part of each net. The answer is where it begins,
/// and the sums of its parts. Inlined up to `push`, where the direction is known, so each direction has a
/// loop of its own.
#[inline(always)]
pub fn join_rows(
    cells: &mut Vec<Cell>,
    left: usize,
    right: usize,
    under: usize,
    weights: &[u8],
    direction: Direction,
    by: Extent,
) -> Result<Wires, NoMemory>
    requires left { left + length weights.now ≤ length cells.old.items }
    requires right { right + length weights.now ≤ length cells.old.items }
    requires under { under + length weights.now ≤ length cells.old.items }
    requires few { length weights.now ≤ 65536 }
    requires fit { All IsFitCell cells.old.items }
    requires near { (j : ℕ) → j < length weights.now
        → IsFitReach (pushed_reach direction by (cell_at cells.old.items (right + j)).reach) }
    ensures row { IfOk result (λ _. cells.new.items
        ≡ cells.old.items
        ++ map (joined_cell cells.old.items direction by left right under)
        (range_with_len 0 (length weights.now))) }
    ensures at { IfOk result (λ wires. wires.at ≡ length cells.old.items) }
    ensures sums { IfOk result
        (AreSums weights.now (joined_cell cells.old.items direction by left right under)
        (length weights.now)) }
    ensures fit { All IsFitCell cells.new.items }
    ensures longer { IsLonger cells.old.items cells.new.items }
{
    cells.reserve(weights.len())?;
    let mut wires = Wires {
        at: cells.len(),
        sum: 0,
        hull: 0,
    };
    for net in 0..weights.len() {
        let of_left = cells[left + net];
        let of_right = cells[right + net];
        let below = cells[under + net];
        let cell = joined_cell(direction, by, of_left, of_right, below);
        cells.push_reserved(cell);
        wires = with_cell(wires, weights[net], cell);
    }
    Ok(wires)
}
