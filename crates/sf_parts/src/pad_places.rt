//! Whether the pads of the nets have places.

ghost use Rattle.std.specs.Prelude.{◌≡◌, ℕ, ◌<◌, ◌||◌, false, length, All, IfOk, vec_len};
ghost use Rattle.std.specs.Prelude.{slice_index_or};
ghost use Rattle.std.specs.List.{list_any};
ghost use Rattle.sf_parts.specs.Admitted.{IsFirstOf, IsPinInRange, pad_of, is_index};
ghost use Rattle.sf_parts.specs.Admitted.{is_wired, missing_places};

use crate::fault::BuildFault;
use crate::index::Index;
use crate::raw::RawPin;
use sf_model::Name;
use std::alloc::{AllocError, Global};

/// Marks the pads of a net.
fn mark_wired(wired: &mut [bool], index: &Index<'_>, pins: &[RawPin])
    requires pads { length wired.old ≡ length index.now.parts.now.pads }
    requires in_range { All (IsPinInRange (length index.now.parts.now.blocks)
        (length index.now.parts.now.pads)) pins.now }
    ensures { (i : ℕ) → i < length wired.old
        → slice_index_or wired.new i false
        ≡ (slice_index_or wired.old i false
        || list_any (λ p. is_index i (pad_of index.now.parts.now.pads p)) pins.now) }
{
    for pin in pins {
        if let Some(pad) = index.pad_of(pin) {
            wired[pad] = true;
        }
    }
}

/// Whether each pad is in a net.
fn wired_pads(alloc: Global, index: &Index<'_>) -> Result<Vec<bool>, AllocError>
    ensures len { IfOk result (λ wired. vec_len wired ≡ length index.now.parts.now.pads) }
    ensures marks { IfOk result (λ wired. (i : ℕ) → i < length index.now.parts.now.pads
        → slice_index_or wired.items i false ≡ is_wired index.now.parts.now i) }
{
    let mut wired = vec![in alloc; false; index.parts.pads.as_slice().len()]?;
    for net in index.parts.nets.as_slice() {
        mark_wired(&mut wired, index, net.pins.as_slice());
    }
    Ok(wired)
}

/// Tests that each pad of a net has a place, where a text places pads.
pub fn check_places(alloc: Global, index: &Index<'_>) -> Result<(), BuildFault>
    ensures { IsFirstOf (missing_places index.now.parts.now) result }
{
    if !index.parts.pads_in {
        return Ok(());
    }
    let wired = wired_pads(alloc, index)?;
    let pads = index.parts.pads.as_slice();
    for i in 0..pads.len() {
        if pads[i].place.is_none() && wired[i] {
            return Err(BuildFault::MissingPlace(Name::new(alloc, pads[i].name.as_bytes())?));
        }
    }
    Ok(())
}
