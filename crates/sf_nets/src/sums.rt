//! What the wires of all nets are at least, by all parts of the bound at once or by one of them alone.

ghost use Rattle.std.specs.Prelude.{◌≡◌, ◌≤◌, ◌+◌, ◌^◌, max, length, IfOk};
ghost use Rattle.sf_node.specs.Children.{IsSubproblem};
ghost use Rattle.sf_node.specs.declared.part.Part.TheVariants.{Full};
ghost use Rattle.sf_standard.specs.Standard.{full_part, nets_by, rest_part, wires_by};
ghost use Rattle.sf_nets.specs.WireParts.{AreByPart, AreWireParts};
ghost use Rattle.sf_nets.specs.Pins.{IsLayout};

use crate::layout::Layout;
use crate::one_part::net_by;
use crate::reach::Reach;
use crate::scratch::Scratch;
use crate::wire_parts::{NO_WIRES, WireParts};
use crate::wires::{net_parts, prepare, weighed};
use sf_model::Design;
use sf_node::{Node, Part};
use std::alloc::AllocError as NoMemory;

/// What the wires are at least by the nets alone or by paths, whichever is more: how far the ends of the
/// paths are apart, with the sum over what these leave of the nets.
pub fn with_paths(design: &Design, sum: u64, rest: u64) -> u64
    requires { rest ≤ 2 ^ 60 }
    ensures { result ≡ max sum (design.now.routes.wires + rest) }
{
    sum.max(design.routes.wires + rest)
}

/// All four sums in one pass, and that of the full part by what paths leave of the nets. The pins of a net of
/// weight 0 are not looked at. Inlined, so that what is not read is not summed.
#[inline(always)]
fn parts_and_rest(
    reaches: &mut [Reach],
    design: &Design,
    node: &Node,
    layout: &Layout,
) -> (WireParts, u64)
    requires subproblem { IsSubproblem design.now node.now }
    requires layout { IsLayout design.now node.now layout.now }
    requires sized { length layout.now.held.items ≤ length reaches.old }
    ensures parts { AreByPart (nets_by design.now node.now) result.0 }
    ensures rest { result.1 ≡ rest_part design.now node.now }
    ensures small { result.1 ≤ 2 ^ 60 }
{
    let mut sums = NO_WIRES;
    let mut rest = 0;
    for (number, net) in design.nets.as_slice().iter().enumerate() {
        if net.weight > 0 {
            let parts = net_parts(reaches, design, node, layout, net);
            sums = sums.with_net(net.weight, parts);
            rest += weighed(design.left_of(number), parts.full);
        }
    }
    (sums, rest)
}

/// All four sums. Where the ends of the paths lie nowhere apart, what is left of the nets is not looked at.
fn sum_parts(reaches: &mut [Reach], design: &Design, node: &Node, layout: &Layout) -> WireParts
    requires subproblem { IsSubproblem design.now node.now }
    requires layout { IsLayout design.now node.now layout.now }
    requires sized { length layout.now.held.items ≤ length reaches.old }
    ensures { AreWireParts design.now node.now result }
{
    if design.routes.wires == 0 {
        let (alone, _) = parts_and_rest(reaches, design, node, layout);
        return alone;
    }
    let (sums, rest) = parts_and_rest(reaches, design, node, layout);
    WireParts {
        full: with_paths(design, sums.full, rest),
        ..sums
    }
}

/// The sum of one part, and the same by what paths leave of the nets. The pins of a net of weight 0 are not
/// looked at. Inlined, so that what is not read is not summed.
#[inline(always)]
fn sum_and_rest(
    reaches: &mut [Reach],
    design: &Design,
    node: &Node,
    layout: &Layout,
    part: Part,
) -> (u64, u64)
    requires subproblem { IsSubproblem design.now node.now }
    requires layout { IsLayout design.now node.now layout.now }
    requires sized { length layout.now.held.items ≤ length reaches.old }
    ensures sum { result.0 ≡ nets_by design.now node.now part }
    ensures rest { part ≡ Full → result.1 ≡ rest_part design.now node.now }
    ensures small { result.1 ≤ 2 ^ 60 }
{
    let mut sum = 0;
    let mut rest = 0;
    for (number, net) in design.nets.as_slice().iter().enumerate() {
        if net.weight > 0 {
            let wire = net_by(reaches, design, node, layout, net, part);
            sum += weighed(net.weight, wire);
            rest += weighed(design.left_of(number), wire);
        }
    }
    (sum, rest)
}

/// The sum of the full part, with what paths make of it. Where their ends lie nowhere apart, what is left of the
/// nets is not looked at.
fn full_sum(reaches: &mut [Reach], design: &Design, node: &Node, layout: &Layout) -> u64
    requires subproblem { IsSubproblem design.now node.now }
    requires layout { IsLayout design.now node.now layout.now }
    requires sized { length layout.now.held.items ≤ length reaches.old }
    ensures { result ≡ full_part design.now node.now }
{
    if design.routes.wires == 0 {
        let (alone, _) = sum_and_rest(reaches, design, node, layout, Part::Full);
        return alone;
    }
    let (sum, rest) = sum_and_rest(reaches, design, node, layout, Part::Full);
    with_paths(design, sum, rest)
}

/// The sum of one part.
fn sum_by(reaches: &mut [Reach], design: &Design, node: &Node, layout: &Layout, part: Part) -> u64
    requires subproblem { IsSubproblem design.now node.now }
    requires layout { IsLayout design.now node.now layout.now }
    requires sized { length layout.now.held.items ≤ length reaches.old }
    ensures { result ≡ wires_by design.now node.now part }
{
    match part {
        Part::Full => full_sum(reaches, design, node, layout),
        Part::Area | Part::Range | Part::Pair | Part::Hull => {
            let (sum, _) = sum_and_rest(reaches, design, node, layout, part);
            sum
        }
    }
}

/// What the wires of the nets are at least by each part of the bound.
pub fn all_wires(scratch: &mut Scratch, design: &Design, node: &Node) -> Result<WireParts, NoMemory>
    requires { IsSubproblem design.now node.now }
    ensures { IfOk result (AreWireParts design.now node.now) }
{
    prepare(scratch, design, node)?;
    Ok(sum_parts(&mut scratch.reaches, design, node, &scratch.layout))
}

/// What the wires of the nets are at least by one part of the bound.
pub fn wires_by(
    scratch: &mut Scratch,
    design: &Design,
    node: &Node,
    part: Part,
) -> Result<u64, NoMemory>
    requires { IsSubproblem design.now node.now }
    ensures { IfOk result (λ wires. wires ≡ wires_by design.now node.now part) }
{
    prepare(scratch, design, node)?;
    Ok(sum_by(&mut scratch.reaches, design, node, &scratch.layout, part))
}
