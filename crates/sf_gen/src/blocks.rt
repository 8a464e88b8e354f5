//! The text of the blocks.

ghost use Rattle.std.specs.Prelude.{◌≡◌, ◌++◌, IfOk, OnOk, string_bytes};
ghost use Rattle.sf_gen.specs.Texts.{soft_count, is_soft, hard_line, soft_line, block_line, block_lines};
ghost use Rattle.sf_gen.specs.Texts.{blocks_head, blocks_text};

use crate::design::Kinds;
use crate::drawn::Size;
use std::alloc::{AllocError as NoMemory, Global};

/// The whole text: title, counts, blocks and pads.
pub fn blocks_text(alloc: Global, sizes: &[Size], kinds: Kinds) -> Result<Vec<u8>, NoMemory>
    ensures { IfOk result (λ t. t.items ≡ blocks_text kinds sizes.now) }
{
    let mut text = String::new(alloc);
    push_head(&mut text, sizes.len(), kinds)?;
    push_blocks(&mut text, sizes, kinds)?;
    text.push_str("p0 terminal\np1 terminal\np2 terminal\np3 terminal\n")?;
    Ok(text.into_bytes())
}

/// How many of so many blocks are soft.
fn soft_among(count: usize, kinds: Kinds) -> usize
    ensures { result ≡ soft_count kinds count }
{
    match kinds {
        Kinds::Hard => 0,
        Kinds::Mixed => count / 2,
    }
}

/// Adds the lines before the blocks.
fn push_head(text: &mut String, count: usize, kinds: Kinds) -> Result<(), NoMemory>
    ensures { OnOk result (string_bytes text.new ≡ string_bytes text.old ++ blocks_head kinds count) }
{
    let soft = soft_among(count, kinds);
    let hard = count - soft;
    write!(
        text,
        "UCSC blocks 1.0\nNumSoftRectangularBlocks : {soft}\nNumHardRectilinearBlocks : {hard}\n\
         NumTerminals : 4\n"
    )
}

/// Adds the lines of the blocks.
fn push_blocks(text: &mut String, sizes: &[Size], kinds: Kinds) -> Result<(), NoMemory>
    ensures { OnOk result (string_bytes text.new ≡ string_bytes text.old ++ block_lines kinds sizes.now) }
{
    for (i, size) in sizes.iter().enumerate() {
        push_block(text, i, *size, kinds)?;
    }
    Ok(())
}

/// Adds the line of a block.
fn push_block(text: &mut String, i: usize, size: Size, kinds: Kinds) -> Result<(), NoMemory>
    ensures { OnOk result (string_bytes text.new ≡ string_bytes text.old ++ block_line kinds i size) }
{
    if is_soft(kinds, i) {
        push_soft(text, i, size)
    } else {
        push_hard(text, i, size)
    }
}

/// Whether the block of this number is soft.
fn is_soft(kinds: Kinds, i: usize) -> bool
    ensures { result ≡ is_soft kinds i }
{
    match kinds {
        Kinds::Hard => false,
        Kinds::Mixed => i % 2 == 1,
    }
}

/// Adds the line of a soft block.
fn push_soft(text: &mut String, i: usize, size: Size) -> Result<(), NoMemory>
    ensures { OnOk result (string_bytes text.new ≡ string_bytes text.old ++ soft_line i size) }
{
    let area = u32::from(size.w) * u32::from(size.h);
    write!(text, "b{i} softrectangular {area} 0.5 2\n")
}

/// Adds the line of a hard block.
fn push_hard(text: &mut String, i: usize, size: Size) -> Result<(), NoMemory>
    ensures { OnOk result (string_bytes text.new ≡ string_bytes text.old ++ hard_line i size) }
{
    let Size { w, h } = size;
    write!(
        text,
        "b{i} hardrectilinear 4 (0, 0) (0, {h}) ({w}, {h}) ({w}, 0)\n"
    )
}
