//! The GSRC pl text of a placement.

ghost use Rattle.std.specs.Prelude.{◌≡◌, ℕ, ◌++◌, ◌<◌, ◌||◌, false, length, slice_index_or, IfOk, OnOk};
ghost use Rattle.std.specs.Prelude.{string_bytes};
ghost use Rattle.std.specs.List.{list_any};
ghost use Rattle.sf_model.specs.Legal.{block_count};
ghost use Rattle.sf_pl_writer.specs.Length.{IsScale};
ghost use Rattle.sf_pl_writer.specs.PlText.{place_text, size_text, block_line, pad_line, is_pad, stands_in};
ghost use Rattle.sf_pl_writer.specs.PlText.{block_lines, pad_lines, pl_text};

use crate::length::{push_length, push_signed};
use sf_model::{Block, Design, Net, Pad, Pin, Spot};
use std::alloc::{AllocError as NoMemory, Global};

/// The GSRC pl text of a placement: a line for each block, and one for each pad that stands in a
/// net. `scale` scaled units are a unit of the file.
pub fn pl_text(
    alloc: Global,
    design: &Design,
    spots: &[Spot],
    scale: u64,
) -> Result<Vec<u8>, NoMemory>
    requires one_each { length spots.now ≡ block_count design.now }
    requires scale { IsScale scale }
    ensures text { IfOk result (λ text. text.items ≡ pl_text design.now spots.now scale) }
{
    let mut text = Vec::from_slice(alloc, b"UCLA pl 1.0\n")?;
    push_blocks(&mut text, design.blocks.as_slice(), spots, scale)?;
    push_pads(&mut text, design, scale)?;
    Ok(text)
}

/// Adds the lines of the blocks.
fn push_blocks(
    text: &mut Vec<u8>,
    blocks: &[Block],
    spots: &[Spot],
    scale: u64,
) -> Result<(), NoMemory>
    requires one_each { length spots.now ≡ length blocks.now }
    requires scale { IsScale scale }
    ensures { OnOk result (text.new.items ≡ text.old.items ++ block_lines scale blocks.now spots.now) }
{
    for (index, spot) in spots.iter().enumerate() {
        push_block(text, &blocks[index], *spot, scale)?;
    }
    Ok(())
}

/// Adds the line of a block.
fn push_block(text: &mut Vec<u8>, block: &Block, spot: Spot, scale: u64) -> Result<(), NoMemory>
    requires { IsScale scale }
    ensures { OnOk result (text.new.items ≡ text.old.items ++ block_line scale block.now spot) }
{
    let mut line = place_of(*text.allocator(), spot.x, spot.y, scale)?;
    push_size(&mut line, spot.w, spot.h, scale)?;
    text.extend_from_slice(block.name.as_bytes())?;
    text.extend_from_slice(line.as_bytes())?;
    Ok(())
}

/// Adds the lines of the pads that stand in nets.
fn push_pads(text: &mut Vec<u8>, design: &Design, scale: u64) -> Result<(), NoMemory>
    requires { IsScale scale }
    ensures { OnOk result (text.new.items ≡ text.old.items ++ pad_lines scale design.now) }
{
    let standing = pads_in_nets(*text.allocator(), design)?;
    for (index, pad) in design.pads.as_slice().iter().enumerate() {
        if standing[index] {
            push_pad(text, pad, scale)?;
        }
    }
    Ok(())
}

/// Adds the line of a pad.
fn push_pad(text: &mut Vec<u8>, pad: &Pad, scale: u64) -> Result<(), NoMemory>
    requires { IsScale scale }
    ensures { OnOk result (text.new.items ≡ text.old.items ++ pad_line scale pad.now) }
{
    let mut line = place_of(*text.allocator(), i64::from(pad.x), i64::from(pad.y), scale)?;
    line.push_str("\n")?;
    text.extend_from_slice(pad.name.as_bytes())?;
    text.extend_from_slice(line.as_bytes())?;
    Ok(())
}

/// Two lengths, each after a space.
fn place_of(alloc: Global, x: i64, y: i64, scale: u64) -> Result<String, NoMemory>
    requires { IsScale scale }
    ensures { IfOk result (λ s. string_bytes s ≡ place_text scale x y) }
{
    let mut place = String::from_str(alloc, " ")?;
    push_signed(&mut place, x, scale)?;
    place.push_str(" ")?;
    push_signed(&mut place, y, scale)?;
    Ok(place)
}

/// Adds the size of a rectangle.
fn push_size(line: &mut String, w: u32, h: u32, scale: u64) -> Result<(), NoMemory>
    requires { IsScale scale }
    ensures { OnOk result (string_bytes line.new ≡ string_bytes line.old ++ size_text scale w h) }
{
    line.push_str(" DIMS = (")?;
    push_length(line, u64::from(w), scale)?;
    line.push_str(", ")?;
    push_length(line, u64::from(h), scale)?;
    line.push_str(") : N\n")
}

/// For each pad whether it stands in a net: one pass over the pins.
fn pads_in_nets(alloc: Global, design: &Design) -> Result<Vec<bool>, NoMemory>
    ensures len { IfOk result (λ flags. length flags.items ≡ length design.now.pads) }
    ensures standing { (p : ℕ) → p < length design.now.pads
        → IfOk result (λ flags. slice_index_or flags.items p false ≡ stands_in design.now.nets p) }
{
    let mut flags = vec![in alloc; false; design.pads.as_slice().len()]?;
    for net in design.nets.as_slice() {
        mark_pads(&mut flags, net);
    }
    Ok(flags)
}

/// Marks the pads of a net.
fn mark_pads(flags: &mut [bool], net: &Net)
    ensures { (p : ℕ) → p < length flags.old
        → slice_index_or flags.new p false
        ≡ (slice_index_or flags.old p false || list_any (is_pad p) net.now.pins) }
{
    for pin in net.pins.as_slice() {
        mark(flags, *pin);
    }
}

/// Marks the pad that a pin is of.
fn mark(flags: &mut [bool], pin: Pin)
    ensures { (p : ℕ) → p < length flags.old
        → slice_index_or flags.new p false ≡ (slice_index_or flags.old p false || is_pad p pin) }
{
    if let Pin::Pad(pad) = pin {
        let index = usize::from(pad);
        if index < flags.len() {
            flags[index] = true;
        }
    }
}
