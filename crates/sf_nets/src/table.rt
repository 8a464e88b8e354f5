//! The standing of each block, by its extent and its seat.

ghost use Rattle.std.specs.Prelude.{◌≡◌, ◌<◌, ◌≤◌, ◌*◌, ◌+◌, ◌-ℤ◌, pos};
ghost use Rattle.std.specs.Prelude.{length, slice_set, Some, None, All, OnOk};
ghost use Rattle.sf_bound.specs.Only.{Tells};
ghost use Rattle.sf_nets.specs.Pins.{extent_from, home_in};
ghost use Rattle.sf_nets.specs.Pins.{standing_of, standing_at, standing_by};

use crate::layout::{Home, Seat, Standing};
use crate::reach::Reach;
use sf_model::{Design, MOST_SIDE};
use sf_standard::{Extent, Interval};
use std::alloc::AllocError as NoMemory;

/// Where a block of this least side lies along a side of the outline.
fn side_range(least: u32, side: u32) -> Interval
    requires least { least ≤ MOST_SIDE }
    requires side { side ≤ MOST_SIDE }
    ensures { result ≡ record { low = pos least; high = pos (2 * side) -ℤ pos least } }
{
    let least = i64::from(least);
    Interval {
        low: least,
        high: 2 * i64::from(side) - least,
    }
}

/// What the pins of a block are measured by, before its seat is known.
fn unseated(design: &Design, extent: Extent) -> Standing
    requires w { extent.least_w ≤ MOST_SIDE }
    requires h { extent.least_h ≤ MOST_SIDE }
    ensures { result ≡ standing_of design.now extent None }
{
    Standing {
        side: u64::from(extent.least_w.min(extent.least_h)),
        range: Reach {
            across: side_range(extent.least_w, design.outline.w),
            upward: side_range(extent.least_h, design.outline.h),
        },
        home: None,
    }
}

/// Where a block lies along one side of its item: from its least place to its greatest.
fn ends(least: u32, least_side: u32, most: u32, most_side: u32) -> Interval
    ensures { result ≡ record { low = pos (2 * least + least_side); high = pos (2 * most + most_side) } }
{
    Interval {
        low: 2 * i64::from(least) + i64::from(least_side),
        high: 2 * i64::from(most) + i64::from(most_side),
    }
}

/// The item of a block's seat, and where the block lies in it.
fn home_in(extent: Extent, seat: Seat) -> Home
    ensures { result ≡ home_in extent seat }
{
    let offset = seat.offset;
    Home {
        item: seat.item,
        reach: Reach {
            across: ends(offset.least_x, extent.least_w, offset.most_x, extent.most_w),
            upward: ends(offset.least_y, extent.least_h, offset.most_y, extent.most_h),
        },
    }
}

/// Writes where a block stands.
fn put_home(table: &mut Vec<Standing>, extents: &[Extent], seat: Seat)
    requires table { seat.offset.block < length table.old.items }
    requires extents { seat.offset.block < length extents.now }
    ensures { let b = seat.offset.block in
        let home = Some (home_in (extent_from extents.now b) seat) in
        table.new.items
        ≡ slice_set table.old.items b (record (standing_at table.old.items b) { home = home }) }
{
    let block = usize::from(seat.offset.block);
    table[block] = Standing {
        home: Some(home_in(extents[block], seat)),
        ..table[block]
    };
}

/// Fills the table with the standing of each block: those that have a seat get a home.
pub fn fill_table(
    table: &mut Vec<Standing>,
    extents: &[Extent],
    seats: &[Seat],
    design: &Design,
) -> Result<(), NoMemory>
    requires count { length extents.now ≡ length design.now.blocks }
    requires small { All (λ e. (e.least_w ≤ MOST_SIDE) × (e.least_h ≤ MOST_SIDE)) extents.now }
    requires seats { All (λ s. s.offset.block < length design.now.blocks) seats.now }
    ensures { OnOk result
        (Tells (standing_by design.now extents.now seats.now) (length design.now.blocks) table.new.items) }
{
    table.clear();
    for extent in extents {
        table.push(unseated(design, *extent))?;
    }
    for seat in seats {
        put_home(table, extents, *seat);
    }
    Ok(())
}
