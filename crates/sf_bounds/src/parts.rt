//! The values of the parts of the standard bound.

ghost use Rattle.std.specs.Prelude.{◌≡◌, ◌≤◌, ◌*◌, ◌^◌, IfOk};
ghost use Rattle.sf_node.specs.Children.{IsSubproblem};
ghost use Rattle.sf_node.specs.ByPart.{AreValues};
ghost use Rattle.sf_standard.specs.Standard.{standard, part_value, wires_by, AllHavePlans};
ghost use Rattle.sf_nets.specs.WireParts.{AreWireParts};
ghost use Rattle.sf_bounds.specs.Open.{AreWireCosts};
ghost use Rattle.sf_bounds.specs.Memory.{IsMemoryOf};
ghost use Rattle.sf_bounds.specs.Rows.{AreKeptOrNone};

use crate::net_frames::NetFrames;
use crate::room::Room;
use crate::value::area_cost;
use sf_model::{Design, MAX};
use sf_nets::{NO_WIRES, Scratch, WireParts, all_wires, wires_by};
use sf_node::{Node, Part, PartValues};
use sf_standard::{standard_is_open, wires_are_bounded};
use std::alloc::AllocError as NoMemory;

/// What wires cost that take so much at least.
fn costs_of(wires: WireParts, design: &Design, node: &Node) -> WireParts
    requires plans { AllHavePlans design.now node.now }
    requires wires { AreWireParts design.now node.now wires }
    ensures { AreWireCosts design.now node.now result }
{
    wires_are_bounded();
    let weight = u64::from(design.weights.wire);
    WireParts {
        range: weight * wires.range,
        pair: weight * wires.pair,
        hull: weight * wires.hull,
        full: weight * wires.full,
    }
}

/// What the wires cost at least by each part of the bound, where each item and each unused block has a plan
/// in the outline: by the rows of the path where there are any, else anew. They are not looked at where they
/// have no weight.
fn wire_costs(
    nets: &mut NetFrames,
    scratch: &mut Scratch,
    design: &Design,
    node: &Node,
) -> Result<WireParts, NoMemory>
    requires subproblem { IsSubproblem design.now node.now }
    requires plans { AllHavePlans design.now node.now }
    requires kept { AreKeptOrNone design.now nets.old }
    ensures costs { IfOk result (AreWireCosts design.now node.now) }
    ensures kept { AreKeptOrNone design.now nets.new }
{
    if design.weights.wire == 0 {
        return Ok(NO_WIRES);
    }
    if let Some(wires) = nets.measure(scratch, design, node)? {
        return Ok(costs_of(wires, design, node));
    }
    let wires = all_wires(scratch, design, node)?;
    Ok(costs_of(wires, design, node))
}

/// The same by one part of the bound alone. It stands apart, so that a leaf which asks for the area alone
/// pays nothing for what the wires need.
#[inline(never)]
fn wire_cost(
    nets: &mut NetFrames,
    scratch: &mut Scratch,
    design: &Design,
    node: &Node,
    part: Part,
) -> Result<u64, NoMemory>
    requires subproblem { IsSubproblem design.now node.now }
    requires plans { AllHavePlans design.now node.now }
    requires kept { AreKeptOrNone design.now nets.old }
    ensures cost { IfOk result (λ cost.
        cost ≡ design.now.weights.wire * wires_by design.now node.now part) }
    ensures small { IfOk result (λ cost. cost ≤ 2 ^ 63) }
    ensures kept { AreKeptOrNone design.now nets.new }
{
    let weight = u64::from(design.weights.wire);
    if weight == 0 {
        return Ok(0);
    }
    wires_are_bounded();
    if let Some(wires) = nets.measure_part(scratch, design, node, part)? {
        return Ok(weight * wires);
    }
    let wires = wires_by(scratch, design, node, part)?;
    Ok(weight * wires)
}

/// The value of the bound with those of the parts below it, all measured at once: from the area that is
/// needed and the wires, at a solved subproblem too.
pub fn all_values(
    room: &mut Room,
    design: &Design,
    node: &Node,
) -> Result<(u64, PartValues), NoMemory>
    requires subproblem { IsSubproblem design.now node.now }
    requires serves { IsMemoryOf design.now room.old }
    ensures value { IfOk result (λ v. v.0 ≡ standard design.now node.now) }
    ensures parts { IfOk result (λ v. AreValues (part_value design.now node.now) v.1) }
    ensures serves { IsMemoryOf design.now room.new }
{
    standard_is_open();
    let Some(area) = area_cost(&mut room.frames, &mut room.anew, design, node)? else {
        return Ok((MAX, all_alike(MAX)));
    };
    let wires = wire_costs(&mut room.nets, &mut room.scratch, design, node)?;
    let parts = PartValues {
        area,
        range: area + wires.range,
        pair: area + wires.pair,
        hull: area + wires.hull,
    };
    Ok((area + wires.full, parts))
}

/// One value for each part.
pub fn all_alike(value: u64) -> PartValues
    ensures { AreValues (λ part. value) result }
{
    PartValues {
        area: value,
        range: value,
        pair: value,
        hull: value,
    }
}

/// The value of one part, measured without the others: what the area and the wires cost by it, or the mark of
/// no cost. That of the area looks at no net.
pub fn part_value(
    room: &mut Room,
    design: &Design,
    node: &Node,
    part: Part,
) -> Result<u64, NoMemory>
    requires subproblem { IsSubproblem design.now node.now }
    requires serves { IsMemoryOf design.now room.old }
    ensures value { IfOk result (λ v. v ≡ part_value design.now node.now part) }
    ensures serves { IsMemoryOf design.now room.new }
{
    standard_is_open();
    let Some(area) = area_cost(&mut room.frames, &mut room.anew, design, node)? else {
        return Ok(MAX);
    };
    match part {
        Part::Area => Ok(area),
        Part::Range | Part::Pair | Part::Hull | Part::Full => {
            let wires = wire_cost(&mut room.nets, &mut room.scratch, design, node, part)?;
            Ok(area + wires)
        }
    }
}
