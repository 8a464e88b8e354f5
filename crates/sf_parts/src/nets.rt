//! The nets of a design.

ghost use Rattle.std.specs.Prelude.{◌≡◌, ◌^◌, ◌<◌, ◌≤◌, length, All, AllPairs, Contains, IfOk, vec_len};
ghost use Rattle.std.specs.Prelude.{map};
ghost use Rattle.std.specs.List.{list_any, AllZip};
ghost use Rattle.std.specs.List.Sorted.{IsNonDecreasingBy, IsPermutation};
ghost use Rattle.sf_parts.specs.Admitted.{IsPinInRange};
ghost use Rattle.sf_parts.specs.Built.{HasNetWeights, named_pins, pin_of};
ghost use Rattle.sf_model.specs.Limits.{pin_order};
ghost use Rattle.sf_parts.specs.Numbers.{AreNumbersOf, IsNetMade, same_pin};

use crate::index::{AdmittedIndex, Index};
use crate::raw::{RawNet, RawPad, RawPin};
use sf_model::{Net, NetList, Pin, Pins};
use std::alloc::{AllocError, Global};

/// How many pads with a place stand before each pad.
fn pad_numbers(alloc: Global, pads: &[RawPad]) -> Result<Vec<u16>, AllocError>
    requires { length pads.now ≤ 16384 }
    ensures { IfOk result (λ numbers. AreNumbersOf numbers.items pads.now) }
{
    let mut numbers = Vec::with_capacity(alloc, pads.len())?;
    let mut number = 0u16;
    for pad in pads {
        numbers.push(number)?;
        if pad.place.is_some() {
            number += 1;
        }
    }
    Ok(numbers)
}

/// What a pin as read stands for.
fn pin_of(index: &Index<'_>, numbers: &[u16], pin: &RawPin) -> Option<Pin>
    requires few { length index.now.parts.now.blocks ≤ 320 }
    requires numbered { AreNumbersOf numbers.now index.now.parts.now.pads }
    requires in_range { IsPinInRange (length index.now.parts.now.blocks)
        (length index.now.parts.now.pads) pin.now }
    ensures { result ≡ pin_of index.now.parts.now pin.now }
{
    if let Some(block) = index.block_of(pin) {
        return Some(Pin::Block(block as u16));
    }
    match index.pad_of(pin) {
        Some(pad) if index.parts.pads_in => Some(Pin::Pad(numbers[pad])),
        _ => None,
    }
}

/// What the pins of a net stand for; a pin that stands for nothing is left out.
fn pins_of(
    alloc: Global,
    index: &Index<'_>,
    numbers: &[u16],
    pins: &[RawPin],
) -> Result<Vec<Pin>, AllocError>
    requires few { length index.now.parts.now.blocks ≤ 320 }
    requires numbered { AreNumbersOf numbers.now index.now.parts.now.pads }
    requires in_range { All (IsPinInRange (length index.now.parts.now.blocks)
        (length index.now.parts.now.pads)) pins.now }
    ensures { IfOk result (λ all. all.items ≡ named_pins index.now.parts.now pins.now) }
{
    let mut all = Vec::with_capacity(alloc, pins.len())?;
    for pin in pins {
        if let Some(pin) = pin_of(index, numbers, pin) {
            all.push(pin)?;
        }
    }
    Ok(all)
}

/// Where a pin stands among others: blocks before pads, each by number.
fn order(pin: Pin) -> u32
    ensures value { result ≡ pin_order pin }
    ensures small { result < 2 ^ 17 }
{
    match pin {
        Pin::Block(block) => u32::from(block),
        Pin::Pad(pad) => 0x1_0000 + u32::from(pad),
    }
}

/// Puts pins in ascending order.
fn sort(pins: &mut Vec<Pin>)
    ensures ascending { IsNonDecreasingBy pin_order pins.new.items }
    ensures permutation { IsPermutation pins.old.items pins.new.items }
{
    pins.sort_unstable_by_key(|pin| order(*pin));
}

/// Pins in ascending order without their repeats.
fn set_of(alloc: Global, pins: &[Pin]) -> Result<Vec<Pin>, AllocError>
    requires { IsNonDecreasingBy pin_order pins.now }
    ensures ascending { IfOk result (λ set. AllPairs (λ p q. pin_order p < pin_order q) set.items) }
    ensures same { IfOk result (λ set. (p : Pin)
        → list_any (same_pin p) set.items ≡ list_any (same_pin p) pins.now) }
    ensures each { IfOk result (λ set. All (Contains pins.now) set.items) }
    ensures few { IfOk result (λ set. vec_len set ≤ length pins.now) }
{
    let mut set = Vec::new(alloc);
    let mut next = 0;
    for pin in pins {
        if order(*pin) >= next {
            set.push(*pin)?;
            next = order(*pin) + 1;
        }
    }
    Ok(set)
}

/// The set of the pins of a net, with this weight.
fn net_of(
    alloc: Global,
    admitted: &AdmittedIndex<'_>,
    numbers: &[u16],
    net: &RawNet,
    weight: u8,
) -> Result<Net, AllocError>
    requires numbered { AreNumbersOf numbers.now admitted.now.index.parts.now.pads }
    requires listed { Contains admitted.now.index.parts.now.nets net.now }
    ensures made { IfOk result (λ made. IsNetMade admitted.now.index.parts.now net.now made) }
    ensures weight { IfOk result (λ made. made.weight ≡ weight) }
{
    let mut pins = pins_of(alloc, &admitted.index, numbers, net.pins.as_slice())?;
    sort(&mut pins);
    let pins = Pins::from_vec(set_of(alloc, &pins)?);
    Ok(Net { pins, weight })
}

/// The nets of admitted parts whose pads have these numbers, each with its weight.
fn nets_in(
    alloc: Global,
    admitted: &AdmittedIndex<'_>,
    numbers: &[u16],
    weights: &[u8],
) -> Result<NetList, AllocError>
    requires numbered { AreNumbersOf numbers.now admitted.now.index.parts.now.pads }
    requires one_each { HasNetWeights admitted.now.index.parts.now weights.now }
    ensures made { IfOk result (λ nets. AllZip
        (IsNetMade admitted.now.index.parts.now) admitted.now.index.parts.now.nets nets) }
    ensures weights { IfOk result (λ nets. map (λ n. n.weight) nets ≡ weights.now) }
{
    let mut nets = Vec::with_capacity(alloc, weights.len())?;
    for (number, net) in admitted.index.parts.nets.as_slice().iter().enumerate() {
        nets.push(net_of(alloc, admitted, numbers, net, weights[number])?)?;
    }
    Ok(NetList::from_vec(nets))
}

/// The nets of admitted parts, in their order, each with its weight.
pub fn nets_of(
    alloc: Global,
    admitted: &AdmittedIndex<'_>,
    weights: &[u8],
) -> Result<NetList, AllocError>
    requires one_each { HasNetWeights admitted.now.index.parts.now weights.now }
    ensures made { IfOk result (λ nets. AllZip
        (IsNetMade admitted.now.index.parts.now) admitted.now.index.parts.now.nets nets) }
    ensures weights { IfOk result (λ nets. map (λ n. n.weight) nets ≡ weights.now) }
{
    let numbers = pad_numbers(alloc, admitted.index.parts.pads.as_slice())?;
    nets_in(alloc, admitted, &numbers, weights)
}
