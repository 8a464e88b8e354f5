//! How far the pins of a net lie apart in the items of an incomplete subproblem.

ghost use Rattle.std.specs.Prelude.{◌≡◌, ◌<◌, ◌≤◌, ℕ, length, All, IfSome, slice_index_or, fold, max, false};
ghost use Rattle.sf_model.specs.Limits.{IsThere};
ghost use Rattle.sf_nets.specs.Pins.{IsNet, IsReady};
ghost use Rattle.sf_nets.specs.Pins.{pin_home, narrowed_in, home_gap, shared_in, greatest_gap};
ghost use Rattle.sf_nets.specs.Ends.{anywhere, IsFitReach};

use crate::layout::{Home, Standing};
use crate::meet::{met, reach_gap};
use crate::reach::{ANYWHERE, Reach};
use sf_model::{Design, Pin};

/// The home of a pin in an incomplete subproblem, where pads have none.
fn block_home(design: &Design, table: &[Standing], pin: Pin) -> Option<Home>
    requires table { length table.now ≡ length design.now.blocks }
    requires inside { IsThere (length design.now.blocks) (length design.now.pads) pin }
    ensures { result ≡ pin_home design.now table.now false pin }
{
    match pin {
        Pin::Block(block) => table[usize::from(block)].home,
        Pin::Pad(_) => None,
    }
}

/// Forgets what the items of some pins shared.
fn clear_homes(reaches: &mut [Reach], design: &Design, table: &[Standing], pins: &[Pin])
    requires ready { IsReady design.now (length reaches.old) table.now }
    requires inside { IsNet design.now pins.now }
    ensures { All (λ p. IfSome (pin_home design.now table.now false p)
        (λ h. slice_index_or reaches.new h.item anywhere ≡ anywhere)) pins.now }
{
    for pin in pins {
        if let Some(home) = block_home(design, table, *pin) {
            reaches[home.item] = ANYWHERE;
        }
    }
}

/// Narrows the reach of each item by the net's pins in it.
fn gather(reaches: &mut [Reach], design: &Design, table: &[Standing], pins: &[Pin])
    requires ready { IsReady design.now (length reaches.old) table.now }
    requires inside { IsNet design.now pins.now }
    ensures { (i : ℕ) → slice_index_or reaches.new i anywhere
        ≡ fold (λ r p. narrowed_in i r (pin_home design.now table.now false p))
        (slice_index_or reaches.old i anywhere) pins.now }
{
    for pin in pins {
        if let Some(home) = block_home(design, table, *pin) {
            reaches[home.item] = met(reaches[home.item], home.reach);
        }
    }
}

/// The gap of a pin's item, where it has one.
fn gap_at(reaches: &[Reach], home: Option<Home>) -> u64
    requires inside { IfSome home (λ h. h.item < length reaches.now) }
    requires near { IfSome home (λ h. IsFitReach (slice_index_or reaches.now h.item anywhere)) }
    ensures is { result ≡ home_gap (λ i. slice_index_or reaches.now i anywhere) home }
    ensures small { result ≤ 2800000000 }
{
    match home {
        Some(home) => reach_gap(reaches[home.item]),
        None => 0,
    }
}

/// The greatest gap of the items in which the pins of a net stand.
fn greatest_gap(reaches: &[Reach], design: &Design, table: &[Standing], pins: &[Pin]) -> u64
    requires ready { IsReady design.now (length reaches.now) table.now }
    requires inside { IsNet design.now pins.now }
    requires near { All (λ p. IfSome (pin_home design.now table.now false p)
        (λ h. IsFitReach (slice_index_or reaches.now h.item anywhere))) pins.now }
    ensures is { result
        ≡ greatest_gap design.now table.now false (λ i. slice_index_or reaches.now i anywhere) pins.now }
    ensures small { result ≤ 2800000000 }
{
    let mut most = 0u64;
    for pin in pins {
        most = most.max(gap_at(reaches, block_home(design, table, *pin)));
    }
    most
}

/// The greatest gap between the pins of a net in one item of an incomplete subproblem.
#[inline(always)]
pub fn hull_part(reaches: &mut [Reach], design: &Design, table: &[Standing], pins: &[Pin]) -> u64
    requires ready { IsReady design.now (length reaches.old) table.now }
    requires inside { IsNet design.now pins.now }
    ensures is { result
        ≡ greatest_gap design.now table.now false (shared_in design.now table.now false pins.now) pins.now }
    ensures small { result ≤ 2800000000 }
{
    clear_homes(reaches, design, table, pins);
    gather(reaches, design, table, pins);
    greatest_gap(reaches, design, table, pins)
}
