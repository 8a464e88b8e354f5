//! What the files of a design say that the design has no place for.

ghost use Rattle.std.specs.Prelude.{◌≡◌, ◌≤◌, ◌^◌, length, IfSome};
ghost use Rattle.sf_options.specs.Seen.{input_seen};
ghost use Rattle.sf_yal.specs.Losses.{losses_of};
ghost use Rattle.sf_designs.specs.Losses.{AreLosses, HasPads};

use sf_gsrc::read_blocks;
use sf_lex::Scale;
use sf_options::InputFiles;
use sf_yal::{YalLosses, yal_losses};
use std::alloc::Global;

/// How much of a file is passed over, or taken otherwise than it may be meant.
#[derive(Clone, Copy)]
pub enum Losses {
    /// So many pads of a blocks file are left out, with their pins, since no pl file is named.
    Pads(u64),
    /// What a YAL file loses.
    Yal(YalLosses),
}

/// How many pads a blocks file has.
fn count_pads(alloc: Global, text: &[u8], scale: Scale) -> Option<u64>
    ensures { IfSome result (HasPads scale.per_unit text.now) }
{
    match read_blocks(alloc, text, scale.per_unit) {
        Ok(blocks) => Some(blocks.pads.as_slice().len() as u64),
        Err(_) => None,
    }
}

/// What a YAL file loses.
fn count_in_yal(alloc: Global, text: &[u8], scale: Scale) -> Option<YalLosses>
    requires { length text.now ≤ 2 ^ 26 }
    ensures { IfSome result (λ losses. losses ≡ losses_of scale.per_unit text.now) }
{
    match yal_losses(alloc, text, scale.per_unit) {
        Ok(losses) => Some(losses),
        Err(_) => None,
    }
}

/// The name of the file of which something may be lost: a blocks file beside nets and without a pl file, or a
/// YAL file.
pub fn lossy_file(input: InputFiles<'_>) -> Option<&str> {
    match input {
        InputFiles::Gsrc {
            blocks,
            nets: Some(_),
            pl: None,
        } => Some(blocks),
        InputFiles::Gsrc { .. } => None,
        InputFiles::Yal { file } => Some(file),
    }
}

/// What is lost where this text of that file is read; none where memory doesn't suffice, or the text is
/// refused.
pub fn count_losses(
    alloc: Global,
    input: InputFiles<'_>,
    scale: Scale,
    text: &[u8],
) -> Option<Losses>
    requires { length text.now ≤ 2 ^ 26 }
    ensures { IfSome result (AreLosses (input_seen input.entry) scale.per_unit text.now) }
{
    match input {
        InputFiles::Gsrc { .. } => match count_pads(alloc, text, scale) {
            Some(pads) => Some(Losses::Pads(pads)),
            None => None,
        },
        InputFiles::Yal { .. } => match count_in_yal(alloc, text, scale) {
            Some(losses) => Some(Losses::Yal(losses)),
            None => None,
        },
    }
}
