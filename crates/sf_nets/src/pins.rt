//! What the pins of a net add to its range, its pair and its hull.

ghost use Rattle.std.specs.Prelude.{◌≡◌, ◌<◌, ◌≤◌, length, All, IfSome, max, true, false};
ghost use Rattle.sf_model.specs.Limits.{IsThere};
ghost use Rattle.sf_nets.specs.Ends.{IsFitReach, reach_gap};
ghost use Rattle.sf_nets.specs.WireParts.{AreAtMost};
ghost use Rattle.sf_nets.specs.Pins.{IsNet, IsReady, IsReadable, pad_reach, pin_range, pin_home};
ghost use Rattle.sf_nets.specs.Pins.{narrowed, paired, pairs_pin, greatest_gap};
ghost use Rattle.sf_nets.specs.Pins.{shared_ranges, paired_sides, shared_homes, shared_in};

use crate::homes::hull_part;
use crate::layout::{Home, Standing};
use crate::meet::{met, reach_gap};
use crate::reach::{ANYWHERE, Reach};
use crate::wire_parts::WireParts;
use sf_model::{Design, MOST_SIDE, Pin};
use sf_standard::Interval;

/// The greatest side and the greatest sum of two sides so far.
#[derive(Clone, Copy)]
pub struct Pair {
    pub most: Option<u64>,
    pub sum: u64,
}

/// The pair of no sides.
const NO_PAIR: Pair = Pair { most: None, sum: 0 };

/// Where a pad lies.
pub fn pad_reach(design: &Design, pad: u16) -> Reach
    requires { pad < length design.now.pads }
    ensures { result ≡ pad_reach design.now pad }
{
    let place = &design.pads.as_slice()[usize::from(pad)];
    let x = 2 * i64::from(place.x);
    let y = 2 * i64::from(place.y);
    Reach {
        across: Interval { low: x, high: x },
        upward: Interval { low: y, high: y },
    }
}

/// Where a pin lies, anywhere in the outline.
#[inline(always)]
fn pin_range(design: &Design, table: &[Standing], pin: Pin) -> Reach
    requires table { length table.now ≡ length design.now.blocks }
    requires inside { IsThere (length design.now.blocks) (length design.now.pads) pin }
    ensures { result ≡ pin_range design.now table.now pin }
{
    match pin {
        Pin::Block(block) => table[usize::from(block)].range,
        Pin::Pad(pad) => pad_reach(design, pad),
    }
}

/// A pair with one side more.
fn with_side(pair: Pair, side: u64) -> Pair
    requires most { IfSome pair.most (λ most. most ≤ MOST_SIDE) }
    requires side { side ≤ MOST_SIDE }
    ensures { result ≡ paired pair.most pair.sum side }
{
    match pair.most {
        None => Pair {
            most: Some(side),
            sum: pair.sum,
        },
        Some(most) => Pair {
            most: Some(most.max(side)),
            sum: pair.sum.max(most + side),
        },
    }
}

/// The pair with the lesser side of a pin's block.
#[inline(always)]
fn pair_pin(pair: Pair, design: &Design, table: &[Standing], pin: Pin) -> Pair
    requires table { length table.now ≡ length design.now.blocks }
    requires inside { IsThere (length design.now.blocks) (length design.now.pads) pin }
    requires sides { All (λ s. s.side ≤ MOST_SIDE) table.now }
    requires most { IfSome pair.most (λ most. most ≤ MOST_SIDE) }
    ensures { result ≡ pairs_pin table.now pair pin }
{
    match pin {
        Pin::Block(block) => with_side(pair, table[usize::from(block)].side),
        Pin::Pad(_) => pair,
    }
}

/// What the one item of a complete subproblem leaves of a reach at one more pin.
#[inline(always)]
fn hull_pin(reach: Reach, design: &Design, table: &[Standing], pin: Pin) -> Reach
    requires table { length table.now ≡ length design.now.blocks }
    requires inside { IsThere (length design.now.blocks) (length design.now.pads) pin }
    ensures { result ≡ narrowed reach (pin_home design.now table.now true pin) }
{
    match pin {
        Pin::Block(block) => narrowed(reach, table[usize::from(block)].home),
        Pin::Pad(pad) => met(reach, pad_reach(design, pad)),
    }
}

/// A reach narrowed by a home, where there is one.
fn narrowed(reach: Reach, home: Option<Home>) -> Reach
    ensures { result ≡ narrowed reach home }
{
    match home {
        Some(home) => met(reach, home.reach),
        None => reach,
    }
}

/// What the pins of a net share anywhere in the outline, the pair of their blocks, and what they share in the
/// one item of a complete subproblem.
#[derive(Clone, Copy)]
pub struct PinParts {
    pub range: Reach,
    pub pair: Pair,
    pub hull: Reach,
}

/// Range, pair and hull of a net in one pass over its pins. Inlined, so that what is not read of it is not
/// measured.
#[inline(always)]
pub fn pin_parts(design: &Design, table: &[Standing], pins: &[Pin]) -> PinParts
    requires ready { IsReadable design.now table.now }
    requires inside { IsNet design.now pins.now }
    ensures range { result.range ≡ shared_ranges design.now table.now pins.now }
    ensures near_range { IsFitReach result.range }
    ensures pair { result.pair ≡ paired_sides table.now pins.now }
    ensures small_pair { result.pair.sum ≤ 2800000000 }
    ensures hull { result.hull ≡ shared_homes design.now table.now pins.now }
    ensures near_hull { IsFitReach result.hull }
{
    let mut range = ANYWHERE;
    let mut pair = NO_PAIR;
    let mut hull = ANYWHERE;
    for pin in pins {
        range = met(range, pin_range(design, table, *pin));
        pair = pair_pin(pair, design, table, *pin);
        hull = hull_pin(hull, design, table, *pin);
    }
    PinParts { range, pair, hull }
}

/// What the wire of a net is at least in a complete subproblem.
pub fn whole_parts(design: &Design, table: &[Standing], pins: &[Pin]) -> WireParts
    requires ready { IsReady design.now 1 table.now }
    requires inside { IsNet design.now pins.now }
    ensures range { result.range ≡ reach_gap (shared_ranges design.now table.now pins.now) }
    ensures pair { result.pair ≡ (paired_sides table.now pins.now).sum }
    ensures hull { result.hull ≡ reach_gap (shared_homes design.now table.now pins.now) }
    ensures full { result.full ≡ max result.range (max result.pair result.hull) }
    ensures small { AreAtMost 2800000000 result }
{
    let parts = pin_parts(design, table, pins);
    WireParts::of_net(
        reach_gap(parts.range),
        parts.pair.sum,
        reach_gap(parts.hull),
    )
}

/// What the wire of a net is at least in an incomplete subproblem.
pub fn open_parts(
    reaches: &mut [Reach],
    design: &Design,
    table: &[Standing],
    pins: &[Pin],
) -> WireParts
    requires ready { IsReady design.now (length reaches.old) table.now }
    requires inside { IsNet design.now pins.now }
    ensures range { result.range ≡ reach_gap (shared_ranges design.now table.now pins.now) }
    ensures pair { result.pair ≡ (paired_sides table.now pins.now).sum }
    ensures hull { result.hull
        ≡ greatest_gap design.now table.now false (shared_in design.now table.now false pins.now) pins.now }
    ensures full { result.full ≡ max result.range (max result.pair result.hull) }
    ensures small { AreAtMost 2800000000 result }
{
    let parts = pin_parts(design, table, pins);
    let hull = hull_part(reaches, design, table, pins);
    WireParts::of_net(reach_gap(parts.range), parts.pair.sum, hull)
}
