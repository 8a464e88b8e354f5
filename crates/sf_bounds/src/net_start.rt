//! What is kept of the nets before any token.

ghost use Rattle.std.specs.Prelude.{◌≡◌, ◌≤◌, ◌+◌, ◌*◌, ◌++◌, ◌∷◌, [], length, map, All, IfOk};
ghost use Rattle.sf_model.specs.Legal.{block_count};
ghost use Rattle.sf_model.specs.Limits.{IsThere};
ghost use Rattle.sf_node.specs.Subproblem.{root};
ghost use Rattle.sf_standard.specs.Hull.{contains_pin};
ghost use Rattle.sf_standard.specs.Standard.{weighed_part, wire_part};
ghost use Rattle.sf_bound.specs.Only.{Tells};
ghost use Rattle.sf_nets.specs.Pins.{IsNet, IsLayout};
ghost use Rattle.sf_bounds.specs.Rows.{counted, of_weight, weighed_nets, weights_of, lefts_of};
ghost use Rattle.sf_bounds.specs.Rows.{whole_extent, own_reach};
ghost use Rattle.sf_bounds.specs.Rows.{block_cell, with_pad, pads_share, start_cell};
ghost use Rattle.sf_bounds.specs.Rows.{IsFitCell, AreBlockRows, AreKept};

use crate::net_frame::{BlockRow, Cell, Nets, Wires};
use sf_model::{Design, Net, Pin};
use sf_nets::{
    ANYWHERE, Layout, Reach, Scratch, all_wires, met, net_by, pad_reach, prepare, weighed,
};
use sf_node::{Node, Part};
use sf_standard::{Extent, Interval};
use std::alloc::{AllocError as NoMemory, Global};

/// The pins that count: none where they are fewer than two.
fn counted(net: &Net) -> &[Pin]
    ensures { result.now ≡ counted net.now.pins }
{
    let pins = net.pins.as_slice();
    if pins.len() < 2 {
        return &pins[..0];
    }
    pins
}

/// Whether a block is among some pins.
fn contains(pins: &[Pin], block: u16) -> bool
    ensures { result ≡ contains_pin block pins.now }
{
    for pin in pins {
        if *pin == Pin::Block(block) {
            return true;
        }
    }
    false
}

/// What a block's own pins share, where it is an item by itself.
fn own_reach(pins: &[Pin], block: u16, extent: Extent) -> Reach
    ensures { result ≡ own_reach pins.now block extent }
{
    if !contains(pins, block) {
        return ANYWHERE;
    }
    Reach {
        across: Interval {
            low: i64::from(extent.least_w),
            high: i64::from(extent.most_w),
        },
        upward: Interval {
            low: i64::from(extent.least_h),
            high: i64::from(extent.most_h),
        },
    }
}

/// The weights of the nets that count.
fn weights_of(alloc: Global, nets: &[Net]) -> Result<Vec<u8>, NoMemory>
    ensures { IfOk result (λ weights. weights.items ≡ weights_of nets.now) }
{
    let mut weights = Vec::new(alloc);
    for net in nets {
        if net.weight > 0 {
            weights.push(net.weight)?;
        }
    }
    Ok(weights)
}

/// What paths leave of the weights of the nets that count.
fn lefts_of(alloc: Global, design: &Design) -> Result<Vec<u8>, NoMemory>
    ensures { IfOk result (λ lefts. lefts.items ≡ lefts_of design.now) }
{
    let mut lefts = Vec::new(alloc);
    for (number, net) in design.nets.as_slice().iter().enumerate() {
        if net.weight > 0 {
            lefts.push(design.left_of(number))?;
        }
    }
    Ok(lefts)
}

/// Puts the cell of a net at the end, where the net counts.
fn push_own(cells: &mut Vec<Cell>, net: &Net, block: u16, extent: Extent) -> Result<(), NoMemory>
    ensures { IfOk result (λ _. cells.new.items
        ≡ cells.old.items ++ map (block_cell block extent) (of_weight (net.now ∷ []))) }
{
    if net.weight > 0 {
        let reach = own_reach(counted(net), block, extent);
        cells.push(Cell {
            reach,
            part: 0,
            hull: 0,
        })?;
    }
    Ok(())
}

/// Puts the row of a block at the end.
fn push_block_row(
    cells: &mut Vec<Cell>,
    design: &Design,
    block: u16,
    extent: Extent,
) -> Result<(), NoMemory>
    ensures { IfOk result (λ _. cells.new.items
        ≡ cells.old.items ++ map (block_cell block extent) (weighed_nets design.now)) }
{
    for net in design.nets.as_slice() {
        push_own(cells, net, block, extent)?;
    }
    Ok(())
}

/// Puts the rows of all blocks at the end.
fn push_block_rows(
    cells: &mut Vec<Cell>,
    alloc: Global,
    design: &Design,
    extents: &[Extent],
) -> Result<Vec<BlockRow>, NoMemory>
    requires none { cells.old.items ≡ [] }
    requires extents { Tells (whole_extent design.now) (block_count design.now) extents.now }
    ensures { IfOk result (λ blocks.
        AreBlockRows design.now (block_count design.now) cells.new.items blocks.items) }
{
    let mut blocks = Vec::new(alloc);
    for block in 0..design.block_count() {
        let extent = extents[usize::from(block)];
        let row = cells.len();
        push_block_row(cells, design, block, extent)?;
        blocks.push(BlockRow { extent, row })?;
    }
    Ok(blocks)
}

/// A reach narrowed by a pin, where that is a pad.
fn with_pad(reach: Reach, design: &Design, pin: Pin) -> Reach
    requires { IsThere (length design.now.blocks) (length design.now.pads) pin }
    ensures { result ≡ with_pad design.now reach pin }
{
    match pin {
        Pin::Block(_) => reach,
        Pin::Pad(pad) => met(reach, pad_reach(design, pad)),
    }
}

/// What the pads share.
fn pads_share(design: &Design, pins: &[Pin]) -> Reach
    requires { IsNet design.now pins.now }
    ensures { result ≡ pads_share design.now pins.now }
{
    let mut reach = ANYWHERE;
    for pin in pins {
        reach = with_pad(reach, design, *pin);
    }
    reach
}

/// Puts what holds of a net before any token at the end, where the net counts. The answer is its part as
/// often as its weight says.
fn push_net(
    cells: &mut Vec<Cell>,
    reaches: &mut [Reach],
    design: &Design,
    node: &Node,
    layout: &Layout,
    net: &Net,
) -> Result<u64, NoMemory>
    requires root { node.now ≡ root design.now }
    requires layout { IsLayout design.now node.now layout.now }
    requires inside { IsNet design.now net.now.pins }
    requires sized { length layout.now.held.items ≤ length reaches.old }
    requires fit { All IsFitCell cells.old.items }
    ensures fit { IfOk result (λ _. All IsFitCell cells.new.items) }
    ensures row { IfOk result (λ _. cells.new.items
        ≡ cells.old.items ++ map (start_cell design.now) (of_weight (net.now ∷ []))) }
    ensures part { IfOk result (λ part. part ≡ weighed_part design.now (root design.now) net.now) }
    ensures small { IfOk result (λ part. part ≤ 714000000000 * length (of_weight (net.now ∷ []))) }
{
    if net.weight == 0 {
        return Ok(0);
    }
    let part = net_by(reaches, design, node, layout, net, Part::Full);
    let reach = pads_share(design, counted(net));
    cells.push(Cell {
        reach,
        part: part as u32,
        hull: 0,
    })?;
    Ok(weighed(net.weight, part))
}

/// Puts what holds before any token at the end. The answer is the sum of the parts, each as often as its
/// net's weight says.
fn push_start(
    cells: &mut Vec<Cell>,
    reaches: &mut [Reach],
    design: &Design,
    node: &Node,
    layout: &Layout,
) -> Result<u64, NoMemory>
    requires root { node.now ≡ root design.now }
    requires layout { IsLayout design.now node.now layout.now }
    requires sized { length layout.now.held.items ≤ length reaches.old }
    requires fit { All IsFitCell cells.old.items }
    ensures fit { IfOk result (λ _. All IsFitCell cells.new.items) }
    ensures row { IfOk result (λ _. cells.new.items
        ≡ cells.old.items ++ map (start_cell design.now) (weighed_nets design.now)) }
    ensures sum { IfOk result (λ sum. sum ≡ wire_part design.now (root design.now)) }
    ensures small { IfOk result (λ sum. sum ≤ 714000000000 * length (weighed_nets design.now)) }
{
    let mut sum = 0;
    for net in design.nets.as_slice() {
        sum += push_net(cells, reaches, design, node, layout, net)?;
    }
    Ok(sum)
}

/// The rows of all blocks, and the wires before any token.
pub fn start(scratch: &mut Scratch, design: &Design) -> Result<Nets, NoMemory>
    ensures { IfOk result (AreKept design.now []) }
{
    let alloc = scratch.alloc;
    let node = Node::root(alloc, design)?;
    let parts = all_wires(scratch, design, &node)?;
    prepare(scratch, design, &node)?;
    let weights = weights_of(alloc, design.nets.as_slice())?;
    let lefts = lefts_of(alloc, design)?;
    let mut cells = Vec::new(alloc);
    let blocks = push_block_rows(&mut cells, alloc, design, &scratch.layout.extents)?;
    let at = cells.len();
    let sum = push_start(
        &mut cells,
        &mut scratch.reaches,
        design,
        &node,
        &scratch.layout,
    )?;
    Ok(Nets {
        cells,
        blocks,
        start: Wires { at, sum, hull: 0 },
        frames: Vec::new(alloc),
        weights,
        lefts,
        ranges: parts.range,
        pairs: parts.pair,
    })
}
