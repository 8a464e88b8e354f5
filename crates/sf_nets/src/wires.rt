//! What the wire of a net is at least, by all parts of the bound at once.

ghost use Rattle.std.specs.Prelude.{◌≡◌, ◌<◌, ◌≤◌, ◌*◌, ◌^◌, length, OnOk};
ghost use Rattle.sf_node.specs.Children.{IsSubproblem};
ghost use Rattle.sf_standard.specs.Standard.{pins_by};
ghost use Rattle.sf_nets.specs.WireParts.{AreByPart, AreAtMost};
ghost use Rattle.sf_nets.specs.Pins.{IsNet, IsLayout};

use crate::extents::fill_extents;
use crate::laying::lay;
use crate::layout::Layout;
use crate::pins::{open_parts, whole_parts};
use crate::reach::{ANYWHERE, Reach};
use crate::scratch::Scratch;
use crate::table::fill_table;
use crate::wire_parts::{NO_WIRES, WireParts};
use sf_model::{Design, Net};
use sf_node::Node;
use std::alloc::AllocError as NoMemory;

/// Lays a subproblem out.
fn fill_layout(layout: &mut Layout, design: &Design, node: &Node) -> Result<(), NoMemory>
    requires { IsSubproblem design.now node.now }
    ensures { OnOk result (IsLayout design.now node.now layout.new) }
{
    fill_extents(&mut layout.extents, design, node)?;
    lay(
        &mut layout.held,
        &mut layout.seats,
        &layout.extents,
        design,
        node,
    )?;
    fill_table(&mut layout.table, &layout.extents, &layout.seats, design)
}

/// Makes the list long enough for the items.
fn fill_reaches(reaches: &mut Vec<Reach>, items: usize) -> Result<(), NoMemory>
    requires { items < 2 ^ 63 }
    ensures { OnOk result (items ≤ length reaches.new.items) }
{
    for _ in reaches.len()..items {
        reaches.push(ANYWHERE)?;
    }
    Ok(())
}

/// What the wire of a net is at least by each part of the bound. In a complete subproblem all pins lie in
/// the one item.
pub fn net_parts(
    reaches: &mut [Reach],
    design: &Design,
    node: &Node,
    layout: &Layout,
    net: &Net,
) -> WireParts
    requires subproblem { IsSubproblem design.now node.now }
    requires layout { IsLayout design.now node.now layout.now }
    requires inside { IsNet design.now net.now.pins }
    requires sized { length layout.now.held.items ≤ length reaches.old }
    ensures are { AreByPart (pins_by design.now node.now net.now.pins) result }
    ensures small { AreAtMost 2800000000 result }
{
    let pins = net.pins.as_slice();
    if pins.len() < 2 {
        return NO_WIRES;
    }
    if node.is_complete() {
        return whole_parts(design, &layout.table, pins);
    }
    open_parts(reaches, design, &layout.table, pins)
}

/// What the wire of a net is at least, as often as its weight says.
#[tactic(auto, using(crate::proofs::WeighedParts::weighed_small))]
pub fn weighed(weight: u8, part: u64) -> u64
    requires { part ≤ 2800000000 }
    ensures is { result ≡ weight * part }
    ensures small { result ≤ 714000000000 }
{
    u64::from(weight) * part
}

/// Lays a subproblem out, with room for the reaches of its items.
pub fn prepare(scratch: &mut Scratch, design: &Design, node: &Node) -> Result<(), NoMemory>
    requires { IsSubproblem design.now node.now }
    ensures layout { OnOk result (IsLayout design.now node.now scratch.new.layout) }
    ensures sized { OnOk result
        (length scratch.new.layout.held.items ≤ length scratch.new.reaches.items) }
{
    fill_layout(&mut scratch.layout, design, node)?;
    fill_reaches(&mut scratch.reaches, scratch.layout.held.len())
}
