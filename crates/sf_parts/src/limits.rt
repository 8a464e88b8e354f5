//! Whether parts keep the limits of a design.

ghost use Rattle.std.specs.Prelude.{◌≡◌, ◌-◌, ◌^◌, length, min, sum_by, flat_map};
ghost use Rattle.sf_parts.specs.Admitted.{IsFirstOf, over, over_counts, over_kind, over_place, over_limits};

use crate::fault::{BuildFault, Limit};
use crate::raw::{Kind, Parts, RawBlock, RawNet, RawPad};
use sf_model::MOST_SIDE;

const MOST_BLOCKS: u64 = 320;

const MOST_PADS: u64 = 16_384;

const MOST_NETS: u64 = 65_536;

/// The most pins of all nets together.
const MOST_PINS: u64 = 1_048_576;

/// The greatest area of a soft block, in squares of scaled whole units.
const MOST_AREA: u64 = 1_099_511_627_776;

/// The greatest distance of a pad from (0, 0), across and upward, in scaled whole units.
pub const MOST_COORDINATE: u64 = 1_048_576;

/// Refuses a quantity that passes its limit.
fn check_quantity(quantity: Limit, most: u64, found: u64) -> Result<(), BuildFault>
    ensures { IsFirstOf (over quantity most found) result }
{
    if most < found {
        return Err(BuildFault::OverLimit(quantity, found, most));
    }
    Ok(())
}

/// How many pins all nets have together, as far as 64 bits go.
fn count_pins(nets: &[RawNet]) -> u64
    ensures { result ≡ min (sum_by (λ n. length n.pins) nets.now) (2 ^ 64 - 1) }
{
    let mut count = 0u64;
    for net in nets {
        count = count.saturating_add(net.pins.as_slice().len() as u64);
    }
    count
}

/// Tests how many blocks, pads, nets and pins there are.
fn check_counts(parts: &Parts) -> Result<(), BuildFault>
    ensures { IsFirstOf (over_counts parts.now) result }
{
    check_quantity(
        Limit::Blocks,
        MOST_BLOCKS,
        parts.blocks.as_slice().len() as u64,
    )?;
    check_quantity(Limit::Pads, MOST_PADS, parts.pads.as_slice().len() as u64)?;
    check_quantity(Limit::Nets, MOST_NETS, parts.nets.as_slice().len() as u64)?;
    check_quantity(Limit::Pins, MOST_PINS, count_pins(parts.nets.as_slice()))
}

/// Tests the sides or the area of a block.
fn check_kind(kind: Kind) -> Result<(), BuildFault>
    ensures { IsFirstOf (over_kind kind) result }
{
    match kind {
        Kind::Hard { w, h } => {
            check_quantity(Limit::Side, MOST_SIDE, w)?;
            check_quantity(Limit::Side, MOST_SIDE, h)
        }
        Kind::Soft { area, .. } => check_quantity(Limit::Area, MOST_AREA, area),
    }
}

/// Tests the sides and areas of all blocks.
fn check_blocks(blocks: &[RawBlock]) -> Result<(), BuildFault>
    ensures { IsFirstOf (flat_map (λ b. over_kind b.kind) blocks.now) result }
{
    for block in blocks {
        check_kind(block.kind)?;
    }
    Ok(())
}

/// Tests the coordinates of a pad that has a place.
fn check_place(place: Option<(i64, i64)>) -> Result<(), BuildFault>
    ensures { IsFirstOf (over_place place) result }
{
    if let Some((x, y)) = place {
        check_quantity(Limit::Coordinate, MOST_COORDINATE, x.unsigned_abs())?;
        check_quantity(Limit::Coordinate, MOST_COORDINATE, y.unsigned_abs())?;
    }
    Ok(())
}

/// Tests the places of all pads.
fn check_pads(pads: &[RawPad]) -> Result<(), BuildFault>
    ensures { IsFirstOf (flat_map (λ p. over_place p.place) pads.now) result }
{
    for pad in pads {
        check_place(pad.place)?;
    }
    Ok(())
}

/// Tests the counts, the sides and areas of blocks, and the places of pads where a text places them.
pub fn check_limits(parts: &Parts) -> Result<(), BuildFault>
    ensures { IsFirstOf (over_limits parts.now) result }
{
    check_counts(parts)?;
    check_blocks(parts.blocks.as_slice())?;
    if parts.pads_in {
        check_pads(parts.pads.as_slice())?;
    }
    Ok(())
}
