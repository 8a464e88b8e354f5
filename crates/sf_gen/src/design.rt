//! The call that makes a design.

ghost use Rattle.std.specs.Prelude.{◌≡◌, ◌≤◌, IfOk};
ghost use Rattle.sf_gen.specs.Drawn.{sizes, ends};
ghost use Rattle.sf_gen.specs.Texts.{blocks_text, nets_text, pl_text};

use crate::blocks::blocks_text;
use crate::drawn::{draw_ends, draw_sizes, generator};
use crate::nets::nets_text;
use crate::pl::pl_text;
use crate::texts::GenTexts;
use sf_model::Items;
use std::alloc::{AllocError as NoMemory, Global};

/// Whether each block is hard, or every second one is soft.
#[derive(Clone, Copy)]
pub enum Kinds {
    Hard,
    Mixed,
}

/// The texts of the design that a seed gives, with so many blocks.
pub fn design_of(alloc: Global, seed: u64, count: u16, kinds: Kinds) -> Result<GenTexts, NoMemory>
    requires some { 1 ≤ count }
    requires few { count ≤ 320 }
    ensures blocks { IfOk result (λ t. t.blocks ≡ blocks_text kinds (sizes seed count)) }
    ensures nets { IfOk result (λ t. t.nets ≡ nets_text (ends seed count)) }
    ensures pl { IfOk result (λ t. t.pl ≡ pl_text count) }
{
    let mut rng = generator(seed);
    let sizes = draw_sizes(alloc, &mut rng, count)?;
    let ends = draw_ends(alloc, &mut rng, count)?;
    Ok(GenTexts {
        blocks: Items::from_vec(blocks_text(alloc, &sizes, kinds)?),
        nets: Items::from_vec(nets_text(alloc, &ends)?),
        pl: Items::from_vec(pl_text(alloc, count)?),
    })
}
