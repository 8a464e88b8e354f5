//! Designs of many blocks, drawn from random numbers.

ghost use Rattle.std.specs.Prelude.{◌≡◌, ◌*◌, ◌<◌, ◌≤◌, length, sum_by, All, IfOk, IfSome};
ghost use Rattle.sf_model.specs.Limits.{IsCoordinate, IsPinSet, IsShapeList, IsSide};

use crate::designs::{block_of, pad};
use rand_core::utils::NextWord;
use rand_pcg::Lcg64Xsh32;
use sf_model::{
    Block, BlockList, Design, Net, NetList, Outline, Pad, PadList, Pin, Pins, Shape, Weights,
};
use std::alloc::{AllocError, Global};

/// The design of so many hard blocks that `gen` makes of a seed, within an outline, without its texts. Areas count
/// once, and wires as often as this.
pub fn drawn(
    alloc: Global,
    seed: u64,
    count: u16,
    outline: Outline,
    wire: u16,
) -> Result<Design, AllocError>
    requires some { 2 ≤ count }
    requires few { count ≤ 320 }
    requires width { IsSide outline.w }
    requires height { IsSide outline.h }
{
    let mut rng = Lcg64Xsh32::new(seed, 1);
    let blocks = draw_blocks(alloc, &mut rng, count)?;
    let nets = draw_nets(alloc, &mut rng, count)?;
    let pads = corners(alloc, 16 * count)?;
    Design::new(
        alloc,
        BlockList::from_vec(blocks),
        PadList::from_vec(pads),
        NetList::from_vec(nets),
        outline,
        Weights { area: 1, wire },
    )
}

/// So many blocks.
fn draw_blocks(alloc: Global, rng: &mut Lcg64Xsh32, count: u16) -> Result<Vec<Block>, AllocError>
    ensures count { IfOk result (λ blocks. length blocks.items ≡ count) }
    ensures shapes { IfOk result (λ blocks. All (λ b. IsShapeList b.shapes) blocks.items) }
{
    let mut blocks = Vec::new(alloc);
    for _block in 0..count {
        blocks.push(draw_block(alloc, rng)?)?;
    }
    Ok(blocks)
}

/// A block that may be turned.
fn draw_block(alloc: Global, rng: &mut Lcg64Xsh32) -> Result<Block, AllocError>
    ensures { IfOk result (λ b. IsShapeList b.shapes) }
{
    let w = draw_side(rng);
    let h = draw_side(rng);
    block_of(alloc, turned(alloc, w, h)?)
}

/// A side from 4 to 32.
fn draw_side(rng: &mut Lcg64Xsh32) -> u32
    ensures { IsSide result }
{
    4 + rng.next_word() % 29
}

/// The shape of these sides and the same turned, the narrower one first.
fn turned(alloc: Global, w: u32, h: u32) -> Result<Vec<Shape>, AllocError>
    requires w { IsSide w }
    requires h { IsSide h }
    ensures { IfOk result (λ shapes. IsShapeList shapes.items) }
{
    if w == h {
        Ok(vec![in alloc; Shape { w, h }]?)
    } else if w < h {
        Ok(vec![in alloc; Shape { w, h }, Shape { w: h, h: w }]?)
    } else {
        Ok(vec![in alloc; Shape { w: h, h: w }, Shape { w, h }]?)
    }
}

/// Twice as many nets as blocks. Every third one has a pad.
fn draw_nets(alloc: Global, rng: &mut Lcg64Xsh32, count: u16) -> Result<Vec<Net>, AllocError>
    requires some { 1 ≤ count }
    requires few { count ≤ 320 }
    ensures count { IfOk result (λ nets. length nets.items ≡ 2 * count) }
    ensures few { IfOk result (λ nets. sum_by (λ n. length n.pins) nets.items ≤ 6 * count) }
    ensures pins { IfOk result (λ nets. All (λ n. IsPinSet count 4 n.pins) nets.items) }
    ensures weights { IfOk result (λ nets. All (λ n. n.weight ≡ 1) nets.items) }
{
    let mut nets = Vec::new(alloc);
    for number in 0..2 * count {
        nets.push(draw_net(alloc, rng, count, pad_of(number))?)?;
    }
    Ok(nets)
}

/// The pad of the net of this number, if it has one.
fn pad_of(number: u16) -> Option<u16>
    ensures { IfSome result (λ p. p < 4) }
{
    if number % 3 == 0 {
        Some(number % 4)
    } else {
        None
    }
}

/// A net of one block or two, and of the pad that is named.
fn draw_net(
    alloc: Global,
    rng: &mut Lcg64Xsh32,
    count: u16,
    pad: Option<u16>,
) -> Result<Net, AllocError>
    requires some { 1 ≤ count }
    requires pad { IfSome pad (λ p. p < 4) }
    ensures few { IfOk result (λ n. length n.pins ≤ 3) }
    ensures pins { IfOk result (λ n. IsPinSet count 4 n.pins) }
    ensures weight { IfOk result (λ n. n.weight ≡ 1) }
{
    let a = draw_number(rng, count);
    let b = draw_number(rng, count);
    let pins = pins_of(alloc, count, a.min(b), a.max(b), pad)?;
    Ok(Net {
        pins: Pins::from_vec(pins),
        weight: 1,
    })
}

/// The number of a block.
fn draw_number(rng: &mut Lcg64Xsh32, count: u16) -> u16
    requires { 1 ≤ count }
    ensures { result < count }
{
    (rng.next_word() % u32::from(count)) as u16
}

/// The pins of two of so many blocks, or of one, and of the pad that is named.
fn pins_of(
    alloc: Global,
    count: u16,
    first: u16,
    last: u16,
    pad: Option<u16>,
) -> Result<Vec<Pin>, AllocError>
    requires ordered { first ≤ last }
    requires last { last < count }
    requires pad { IfSome pad (λ p. p < 4) }
    ensures few { IfOk result (λ pins. length pins.items ≤ 3) }
    ensures pins { IfOk result (λ pins. IsPinSet count 4 pins.items) }
{
    match pad {
        None if first == last => Ok(vec![in alloc; Pin::Block(first)]?),
        None => Ok(vec![in alloc; Pin::Block(first), Pin::Block(last)]?),
        Some(pad) if first == last => Ok(vec![in alloc; Pin::Block(first), Pin::Pad(pad)]?),
        Some(pad) => Ok(vec![in alloc; Pin::Block(first), Pin::Block(last), Pin::Pad(pad)]?),
    }
}

/// The pads at the corners of a square of this side.
fn corners(alloc: Global, side: u16) -> Result<Vec<Pad>, AllocError>
    ensures count { IfOk result (λ pads. length pads.items ≡ 4) }
    ensures places { IfOk result (λ pads. All (λ p. IsCoordinate p.x × IsCoordinate p.y) pads.items) }
{
    let side = i32::from(side);
    Ok(vec![in alloc;
        pad(alloc, 0, 0)?,
        pad(alloc, side, 0)?,
        pad(alloc, 0, side)?,
        pad(alloc, side, side)?,
    ]?)
}
