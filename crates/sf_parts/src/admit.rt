//! Whether parts may become a design.

ghost use Rattle.std.specs.Prelude.{◌≡◌, ◌≢◌, OnOk, IfErr, Some};
ghost use Rattle.sf_parts.specs.Admitted.{first_refusal, IsAdmitted, IsFirstOf, HasPinsInRange, faults};
ghost use Rattle.sf_parts.specs.Admitted.{name_faults, KeepsLimits};
ghost use Rattle.sf_parts.specs.declared.fault.BuildFault.TheVariants.{NoMemory};
ghost use Rattle.sf_parts.specs.declared.raw.Parts.{Parts};

use crate::fault::BuildFault;
use crate::index::{Index, RangedParts};
use crate::limits::check_limits;
use crate::names::{check_duplicates, check_known};
use crate::pad_places::check_places;
use crate::raw::Parts;
use std::alloc::Global;

impl Parts {
    /// Tests, in this order, that there is a block, that the counts, the sides, the areas and the places of
    /// the pads keep their limits, that no two blocks, no two pads and no block and pad that a pin or a
    /// place names share a name, that each named pin and each stranger is there, and that each pad of a net
    /// has a place. Of several faults of one kind the first by its list is answered.
    pub fn admit(&self, alloc: Global) -> Result<(), BuildFault>
        requires { HasPinsInRange self.now }
        ensures admitted { OnOk result (IsAdmitted self.now) }
        ensures refused { IfErr result (λ fault. fault ≢ NoMemory → first_refusal self.now ≡ Some fault) }
    {
        check_parts(alloc, RangedParts { parts: self })
    }
}

/// The first fault of parts.
fn check_parts(alloc: Global, ranged: RangedParts<'_>) -> Result<(), BuildFault>
    ensures { IsFirstOf (faults ranged.entry.parts.now) result }
{
    if ranged.parts.blocks.as_slice().is_empty() {
        return Err(BuildFault::NoBlocks);
    }
    check_limits(ranged.parts)?;
    check_names(alloc, ranged)
}

/// The first fault of the names and places of parts.
fn check_names(alloc: Global, ranged: RangedParts<'_>) -> Result<(), BuildFault>
    ensures { IsFirstOf (name_faults ranged.entry.parts.now) result }
{
    let index = Index::new(alloc, ranged)?;
    check_index(alloc, &index)
}

/// The same of parts with the tables of their names.
fn check_index(alloc: Global, index: &Index<'_>) -> Result<(), BuildFault>
    ensures { IsFirstOf (name_faults index.now.parts.now) result }
{
    check_duplicates(alloc, index)?;
    check_known(alloc, index)?;
    check_places(alloc, index)
}

/// Admitted parts keep the limits.
pub fn admitted_parts_keep_limits()
    ensures { (parts : Parts) → IsAdmitted parts → KeepsLimits parts }
{}
