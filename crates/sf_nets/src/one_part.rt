//! What the wire of a net is at least by one part of the bound, measured without the others.

ghost use Rattle.std.specs.Prelude.{◌≡◌, ◌≤◌, length};
ghost use Rattle.sf_node.specs.Children.{IsSubproblem};
ghost use Rattle.sf_standard.specs.Standard.{pins_by};
ghost use Rattle.sf_nets.specs.Pins.{IsNet, IsLayout};

use crate::homes::hull_part;
use crate::layout::Layout;
use crate::meet::reach_gap;
use crate::pins::pin_parts;
use crate::reach::Reach;
use crate::wires::net_parts;
use sf_model::{Design, Net};
use sf_node::{Node, Part};

/// What the wire of a net is at least by one part of the bound. In a complete subproblem all pins lie in
/// the one item.
pub fn net_by(
    reaches: &mut [Reach],
    design: &Design,
    node: &Node,
    layout: &Layout,
    net: &Net,
    part: Part,
) -> u64
    requires subproblem { IsSubproblem design.now node.now }
    requires layout { IsLayout design.now node.now layout.now }
    requires inside { IsNet design.now net.now.pins }
    requires sized { length layout.now.held.items ≤ length reaches.old }
    ensures is { result ≡ pins_by design.now node.now net.now.pins part }
    ensures small { result ≤ 2800000000 }
{
    let pins = net.pins.as_slice();
    if pins.len() < 2 {
        return 0;
    }
    match part {
        Part::Area => 0,
        Part::Range => reach_gap(pin_parts(design, &layout.table, pins).range),
        Part::Pair => pin_parts(design, &layout.table, pins).pair.sum,
        Part::Hull if node.is_complete() => reach_gap(pin_parts(design, &layout.table, pins).hull),
        Part::Hull => hull_part(reaches, design, &layout.table, pins),
        Part::Full => net_parts(reaches, design, node, layout, net).full,
    }
}
