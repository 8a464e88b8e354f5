//! Whether paths are legal, and what follows from them.

ghost use Rattle.std.specs.Prelude.{◌≡◌, ◌≢◌, ◌↔◌, ℕ, ◌+◌, ◌<◌, ◌≤◌, ◌^◌, ◌==◌, ℤ, ◌≤ℤ◌, List, map, take, length};
ghost use Rattle.std.specs.Prelude.{min, All, Some, None, IsTrue, IsFalse, IsSome, IfOk, IfErr, IfSome};
ghost use Rattle.std.specs.Prelude.{slice_index, sum_by, count_by};
ghost use Rattle.sf_model.specs.Paths.{has_pin, is_pad, names_pad, reach_pad, leads};
ghost use Rattle.sf_model.specs.Paths.{hops, IsHop, IsPath, last_of, end_of, uses};
ghost use Rattle.sf_model.specs.Paths.{ArePathsOfAxis, AreLegal, IsFirstWrong, pull, pad_x, pad_y, AreRoutes};
ghost use Rattle.sf_model.specs.Paths.{no_paths, net_in};
ghost use Rattle.sf_model.specs.Axes.{place_on, IsFirstWrongOfAxis};
ghost use Rattle.sf_model.specs.declared.parts.Pad.{Pad as PadValue};
ghost use Rattle.sf_model.specs.declared.paths.PathFault.TheVariants.{BadPath};

use crate::design::Design;
use crate::parts::{Net, Pad, Pin};
use crate::paths::{NetWeights, Path, PathFault, PathList, Paths, Routes, Step};
use std::alloc::{AllocError, Global};

/// An axis along which paths lead: from left to right, or from below upward.
#[derive(Clone, Copy)]
pub enum Axis {
    Across,
    Upward,
}

/// The weight of each net.
fn weights_of(alloc: Global, nets: &[Net]) -> Result<Vec<u8>, AllocError>
    ensures { IfOk result (λ weights. weights.items ≡ map (λ n. n.weight) nets.now) }
{
    let mut weights = Vec::with_capacity(alloc, nets.len())?;
    for net in nets {
        weights.push(net.weight)?;
    }
    Ok(weights)
}

/// No paths: the nets keep their weights.
pub fn unrouted(alloc: Global, nets: &[Net]) -> Result<Routes, AllocError>
    ensures legal { IfOk result (λ routes. (pads : List PadValue) → AreRoutes pads nets.now routes) }
    ensures none { IfOk result (λ routes. routes.paths ≡ no_paths) }
{
    let left = weights_of(alloc, nets)?;
    Ok(Routes {
        paths: Paths {
            across: PathList::from_vec(Vec::new(alloc)),
            upward: PathList::from_vec(Vec::new(alloc)),
        },
        left: NetWeights::from_vec(left),
        wires: 0,
    })
}

/// Whether a pin is among some pins.
fn has_pin(pins: &[Pin], pin: Pin) -> bool
    ensures { result ≡ has_pin pins.now pin }
{
    for other in pins {
        if *other == pin {
            return true;
        }
    }
    false
}

/// Whether a pin is that of a pad which is there.
fn is_pad(pads: &[Pad], pin: Pin) -> bool
    ensures { result ≡ is_pad pads.now pin }
{
    match pin {
        Pin::Block(_) => false,
        Pin::Pad(pad) => usize::from(pad) < pads.len(),
    }
}

/// Whether a step from a pin goes by a net that is there and has both pins.
fn is_hop(nets: &[Net], at: Pin, step: Step) -> bool
    ensures { IsTrue result ↔ IsHop nets.now (at, step) }
{
    let number = step.net as usize;
    if number >= nets.len() {
        return false;
    }
    let pins = nets[number].pins.as_slice();
    has_pin(pins, at) && has_pin(pins, step.to)
}

/// Whether each step of a path is one.
fn walks(nets: &[Net], path: &Path) -> bool
    ensures { IsTrue result ↔ All (IsHop nets.now) (hops path.now) }
{
    let mut at = path.first;
    for step in path.steps.as_slice() {
        if !is_hop(nets, at, *step) {
            return false;
        }
        at = step.to;
    }
    true
}

/// Where a path ends.
fn end_of(path: &Path) -> Pin
    ensures { result ≡ end_of path.now }
{
    let mut at = path.first;
    for step in path.steps.as_slice() {
        at = step.to;
    }
    at
}

/// Whether a pin is that of a pad, whether it is there or not.
fn names_pad(pin: Pin) -> bool
    ensures { result ≡ names_pad pin }
{
    match pin {
        Pin::Block(_) => false,
        Pin::Pad(_) => true,
    }
}

/// Whether steps go by way of blocks to a pad.
fn reach_pad(steps: &[Step]) -> bool
    ensures { result ≡ reach_pad steps.now }
{
    for number in 0..steps.len() {
        if names_pad(steps[number].to) {
            return number + 1 == steps.len();
        }
    }
    false
}

/// Whether a path leads from a pad by way of blocks to a pad.
fn leads(path: &Path) -> bool
    ensures { result ≡ leads path.now }
{
    names_pad(path.first) && reach_pad(path.steps.as_slice())
}

/// Where a pad stands along an axis, doubled.
fn place_on(axis: Axis, pads: &[Pad], pin: Pin) -> i64
    requires { IsTrue (is_pad pads.now pin) }
    ensures { result ≡ place_on axis pads.now pin }
{
    let Pin::Pad(pad) = pin else { unreachable!() };
    let pad = &pads[usize::from(pad)];
    match axis {
        Axis::Across => 2 * i64::from(pad.x),
        Axis::Upward => 2 * i64::from(pad.y),
    }
}

/// Whether a path's end doesn't stand before its beginning along an axis.
fn is_ahead(axis: Axis, pads: &[Pad], path: &Path) -> bool
    requires first { IsTrue (is_pad pads.now path.now.first) }
    requires last { IsTrue (is_pad pads.now (end_of path.now)) }
    ensures { IsTrue result ↔ (place_on axis pads.now path.now.first ≤ℤ place_on axis pads.now (end_of path.now)) }
{
    place_on(axis, pads, path.first) <= place_on(axis, pads, end_of(path))
}

/// Whether a path walks along an axis from a pad by way of blocks to a pad that doesn't stand before it.
fn is_path(axis: Axis, design: &Design, path: &Path) -> bool
    ensures { IsTrue result
        ↔ IsPath (place_on axis design.now.pads) design.now.pads design.now.nets path.now }
{
    let pads = design.pads.as_slice();
    if !walks(design.nets.as_slice(), path) || !leads(path) {
        return false;
    }
    is_pad(pads, path.first) && is_pad(pads, end_of(path)) && is_ahead(axis, pads, path)
}

/// Takes the nets of some steps off what is left of each net's weight. At false one of them is used more
/// often than was left.
fn take_nets(left: &mut Vec<u8>, steps: &[Step]) -> bool
    requires { All (λ s. s.net < length left.old.items) steps.now }
    ensures len { length left.new.items ≡ length left.old.items }
    ensures taken { IsTrue result → (i : ℕ) → i < length left.old.items
        → slice_index left.new.items i + count_by (λ s. s.net == i) steps.now
        ≡ slice_index left.old.items i }
    ensures over { IsFalse result → (i : ℕ) × (i < length left.old.items)
        × (slice_index left.old.items i < count_by (λ s. s.net == i) steps.now) }
{
    for step in steps {
        let net = step.net as usize;
        if left[net] == 0 {
            return false;
        }
        left[net] -= 1;
    }
    true
}

/// The first wrong path of an axis; none if they are legal, and then their nets are taken off the weights.
fn first_wrong(left: &mut Vec<u8>, axis: Axis, design: &Design, paths: &[Path]) -> Option<usize>
    requires { left.old.items ≡ map (λ n. n.weight) design.now.nets }
    ensures wrong { IfSome result
        (IsFirstWrongOfAxis (place_on axis design.now.pads) design.now.pads design.now.nets paths.now) }
    ensures legal { result ≡ None
        → ArePathsOfAxis (place_on axis design.now.pads) design.now.pads design.now.nets paths.now }
    ensures len { length left.new.items ≡ length left.old.items }
    ensures taken { result ≡ None → (i : ℕ) → i < length left.old.items
        → slice_index left.new.items i + uses i paths.now ≡ slice_index left.old.items i }
{
    for number in 0..paths.len() {
        let path = &paths[number];
        if !is_path(axis, design, path) || !take_nets(left, path.steps.as_slice()) {
            return Some(number);
        }
    }
    None
}

/// How far a path's end lies behind its beginning along an axis.
fn pull(axis: Axis, design: &Design, path: &Path) -> u64
    requires { IsPath (place_on axis design.now.pads) design.now.pads design.now.nets path.now }
    ensures { result ≡ pull (place_on axis design.now.pads) path.now }
{
    let pads = design.pads.as_slice();
    let first = place_on(axis, pads, path.first);
    let end = place_on(axis, pads, end_of(path));
    (end - first) as u64
}

/// The same of all paths of an axis.
fn pulled(axis: Axis, design: &Design, paths: &[Path]) -> u64
    requires { ArePathsOfAxis (place_on axis design.now.pads) design.now.pads design.now.nets paths.now }
    ensures is { result ≡ sum_by (pull (place_on axis design.now.pads)) paths.now }
    ensures small { result ≤ 2 ^ 46 }
{
    let mut sum = 0;
    for path in paths {
        sum += pull(axis, design, path);
    }
    sum
}

/// Keeps of each number the lesser.
fn keep_least(numbers: &mut Vec<u8>, others: &[u8])
    requires { length others.now ≡ length numbers.old.items }
    ensures len { length numbers.new.items ≡ length numbers.old.items }
    ensures least { (i : ℕ) → i < length numbers.old.items
        → slice_index numbers.new.items i
        ≡ min (slice_index numbers.old.items i) (slice_index others.now i) }
{
    for i in 0..numbers.len() {
        numbers[i] = numbers[i].min(others[i]);
    }
}

/// What follows from paths for a design, if they are legal; else the first wrong one.
pub fn routes_of(alloc: Global, design: &Design, paths: Paths) -> Result<Routes, PathFault>
    ensures legal { IfOk result (AreRoutes design.now.pads design.now.nets) }
    ensures same { IfOk result (λ routes. routes.paths ≡ paths) }
    ensures wrong { IfErr result (λ fault. (n : ℕ) → fault ≡ BadPath n
        → IsFirstWrong design.now.pads design.now.nets paths n) }
{
    let mut left = weights_of(alloc, design.nets.as_slice())?;
    let mut upward_left = weights_of(alloc, design.nets.as_slice())?;
    let across = paths.across.as_slice();
    let upward = paths.upward.as_slice();
    if let Some(number) = first_wrong(&mut left, Axis::Across, design, across) {
        return Err(PathFault::BadPath(number));
    }
    if let Some(number) = first_wrong(&mut upward_left, Axis::Upward, design, upward) {
        return Err(PathFault::BadPath(across.len() + number));
    }
    keep_least(&mut left, &upward_left);
    let wires = pulled(Axis::Across, design, across) + pulled(Axis::Upward, design, upward);
    Ok(Routes {
        paths,
        left: NetWeights::from_vec(left),
        wires,
    })
}
