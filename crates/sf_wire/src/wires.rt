//! The length of wires in a placement.

ghost use Rattle.std.specs.Prelude.{◌≡◌, ◌<◌, ◌≤◌, ◌^◌, ◌*◌, length};
ghost use Rattle.sf_model.specs.Limits.{IsThere};
ghost use Rattle.sf_model.specs.Legal.{block_count};
ghost use Rattle.sf_model.specs.Wire.{pin_x, pin_y, net_wire, weighed_wire, wire};
ghost use Rattle.sf_place.specs.Verdict.{AreLegal};
ghost use Rattle.sf_model.specs.Limits.{IsDoubledCoordinate};
ghost use Rattle.sf_wire.specs.Nets.{HasPins};
ghost use Rattle.sf_wire.specs.Nets.{net_at};

use crate::extent::Extent;
use sf_model::{Design, Net, Pin, Spot};
use sf_place::spot_at;

/// The wire of a net: the half perimeter of the bounding box of its pins (HPWL), in doubled scaled whole
/// units, so that centres are whole. Its weight doesn't count.
pub fn net_wire(design: &Design, net: usize, spots: &[Spot]) -> u64
    requires in_range { net < length design.now.nets }
    requires legal { AreLegal design.now spots.now }
    ensures wire { result ≡ net_wire design.now spots.now (net_at design.now net) }
    ensures bounded { result ≤ 2 ^ 23 }
{
    half_perimeter(design, &design.nets.as_slice()[net], spots)
}

/// The sum over all nets of weight times `net_wire`, in doubled scaled whole units.
pub fn wire(design: &Design, spots: &[Spot]) -> u64
    requires { AreLegal design.now spots.now }
    ensures wire { result ≡ wire design.now spots.now }
    ensures bounded { result < 2 ^ 47 }
{
    let mut total = 0;
    for net in design.nets.as_slice() {
        total += weighed_wire(design, net, spots);
    }
    total
}

/// The half perimeter of a net's pins, as often as its weight says. One of weight 0 is not looked at.
fn weighed_wire(design: &Design, net: &Net, spots: &[Spot]) -> u64
    requires legal { AreLegal design.now spots.now }
    requires pins { HasPins design.now net.now }
    ensures wire { result ≡ weighed_wire design.now spots.now net.now }
    ensures bounded { result ≤ 255 * 2 ^ 23 }
{
    if net.weight == 0 {
        return 0;
    }
    u64::from(net.weight) * half_perimeter(design, net, spots)
}

/// The half perimeter of the bounding box of a net's pins, in doubled units.
fn half_perimeter(design: &Design, net: &Net, spots: &[Spot]) -> u64
    requires legal { AreLegal design.now spots.now }
    requires pins { HasPins design.now net.now }
    ensures wire { result ≡ net_wire design.now spots.now net.now }
    ensures bounded { result ≤ 2 ^ 23 }
{
    let Some((first, others)) = net.pins.as_slice().split_first() else {
        return 0;
    };
    let (x, y) = point_of(design, *first, spots);
    let mut across = Extent::of(x);
    let mut upward = Extent::of(y);
    for pin in others {
        let (x, y) = point_of(design, *pin, spots);
        across = across.with(x);
        upward = upward.with(y);
    }
    across.spread() + upward.spread()
}

/// The doubled point of a pin: the centre of a block, or where a pad stands.
fn point_of(design: &Design, pin: Pin, spots: &[Spot]) -> (i64, i64)
    requires legal { AreLegal design.now spots.now }
    requires in_range { IsThere (block_count design.now) (length design.now.pads) pin }
    ensures x { result.0 ≡ pin_x design.now spots.now pin }
    ensures y { result.1 ≡ pin_y design.now spots.now pin }
    ensures near_x { IsDoubledCoordinate result.0 }
    ensures near_y { IsDoubledCoordinate result.1 }
{
    match pin {
        Pin::Block(block) => {
            let spot = spot_at(spots, usize::from(block));
            (
                2 * spot.x + i64::from(spot.w),
                2 * spot.y + i64::from(spot.h),
            )
        }
        Pin::Pad(pad) => {
            let pad = &design.pads.as_slice()[usize::from(pad)];
            (2 * i64::from(pad.x), 2 * i64::from(pad.y))
        }
    }
}
