//! The text of the places.

ghost use Rattle.std.specs.Prelude.{◌≡◌, ◌≤◌, IfOk};
ghost use Rattle.sf_gen.specs.Texts.{pl_text};

use std::alloc::{AllocError as NoMemory, Global};

/// The pads at the corners of a square.
#[tactic(auto, unfolding(crate::specs::Texts::pl_text))]
pub fn pl_text(alloc: Global, count: u16) -> Result<Vec<u8>, NoMemory>
    requires { count ≤ 320 }
    ensures { IfOk result (λ t. t.items ≡ pl_text count) }
{
    let side = 16 * count;
    let text = format!(in alloc;
        "UCLA pl 1.0\np0 0 0\np1 {side} 0\np2 0 {side}\np3 {side} {side}\n"
    )?;
    Ok(text.into_bytes())
}
