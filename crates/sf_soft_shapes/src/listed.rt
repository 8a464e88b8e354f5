//! The lists of shapes of all blocks.

ghost use Rattle.std.specs.Prelude.{◌≡◌, ◌≢◌, ◌≤◌, [], IfOk, IfErr, None, length};
ghost use Rattle.sf_parts.specs.Admitted.{IsAdmitted, HasSizes, IsSized, IsKindWithin};
ghost use Rattle.sf_parts.specs.Built.{HasShapeChoices, first_shapeless};
ghost use Rattle.sf_model.specs.Limits.{IsShapeChoice};
ghost use Rattle.sf_parts.specs.declared.fault.BuildFault.TheVariants.{NoShape, NoMemory};
ghost use Rattle.sf_soft_shapes.specs.Listed.{IsListOf, AreListsOf, HasNoneFor};

use crate::fault::ShapeFault;
use crate::hard::hard_shapes;
use crate::soft::soft_shapes;
use sf_model::{Name, Shapes};
use sf_parts::{BuildFault, Kind, Parts, admitted_parts_keep_limits};
use std::alloc::Global;

/// The list of shapes of a block.
fn list_of(alloc: Global, kind: Kind, k: u16, fixed: bool) -> Result<Shapes, ShapeFault>
    requires sized { IsSized kind }
    requires within { IsKindWithin kind }
    requires count { (2 ≤ k) × (k ≤ 256) }
    ensures listed { IfOk result (λ list. IsListOf k fixed kind list) }
    ensures choice { IfOk result (λ list. IsShapeChoice list) }
    ensures has_shape { IfOk result (λ list. 1 ≤ length list) }
    ensures no_shape { result ≡ Err ShapeFault.NoShape → IsListOf k fixed kind [] }
{
    let shapes = match kind {
        Kind::Hard { w, h } => hard_shapes(alloc, w as u32, h as u32, fixed)?,
        Kind::Soft { area, min, max } => soft_shapes(alloc, area, min, max, k)?,
    };
    Ok(Shapes::from_vec(shapes))
}

/// The list of shapes of each block, in their order; each soft block has at most `k`, and each hard block
/// is turned too unless `fixed`.
pub fn lists(alloc: Global, parts: &Parts, k: u16, fixed: bool) -> Result<Vec<Shapes>, BuildFault>
    requires admitted { IsAdmitted parts.now }
    requires sized { HasSizes parts.now }
    requires count { (2 ≤ k) × (k ≤ 256) }
    ensures listed { IfOk result (λ lists. AreListsOf k fixed parts.now.blocks lists.items) }
    ensures choices { IfOk result (λ lists. HasShapeChoices parts.now.blocks lists.items) }
    ensures shaped { IfOk result (λ lists. first_shapeless parts.now.blocks lists.items ≡ None) }
    ensures refused { IfErr result (λ fault. fault ≢ NoMemory → HasNoneFor k fixed parts.now.blocks fault) }
{
    admitted_parts_keep_limits();
    let mut lists = Vec::new(alloc);
    for block in parts.blocks.as_slice() {
        match list_of(alloc, block.kind, k, fixed) {
            Ok(list) => lists.push(list)?,
            Err(ShapeFault::NoShape) => {
                return Err(BuildFault::NoShape(Name::new(alloc, block.name.as_bytes())?));
            }
            Err(ShapeFault::NoMemory) => return Err(BuildFault::NoMemory),
        }
    }
    Ok(lists)
}
