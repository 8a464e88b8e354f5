//! Shapes of a hard block.

ghost use Rattle.std.specs.Prelude.{◌≡◌, IfOk, ◌≢◌, ◌≤◌, vec_len};
ghost use Rattle.sf_model.specs.Limits.{IsShapeChoice, IsSide};
ghost use Rattle.sf_soft_shapes.specs.Listed.{hard_list};

use crate::fault::ShapeFault;
use sf_model::Shape;
use std::alloc::Global;

/// The shapes of a hard block of these sides: as it stands, and turned unless it is fixed or a square.
pub fn hard_shapes(alloc: Global, w: u32, h: u32, fixed: bool) -> Result<Vec<Shape>, ShapeFault>
    requires width { IsSide w }
    requires height { IsSide h }
    ensures listed { IfOk result (λ shapes. shapes.items ≡ hard_list w h fixed) }
    ensures choice { IfOk result (λ shapes. IsShapeChoice shapes.items) }
    ensures some { IfOk result (λ shapes. 1 ≤ vec_len shapes) }
    ensures has_shape { result ≢ Err ShapeFault.NoShape }
{
    if fixed || w == h {
        return Ok(vec![in alloc; Shape { w, h }]?);
    }
    let (short, long) = (w.min(h), w.max(h));
    Ok(vec![in alloc; Shape { w: short, h: long }, Shape { w: long, h: short }]?)
}
