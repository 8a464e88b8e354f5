//! What tokens cost.

ghost use Rattle.std.specs.Prelude.{◌≡◌, ℕ, length, IfOk, IfSome};
ghost use Rattle.sf_model.specs.Legal.{block_count};
ghost use Rattle.sf_polish.specs.Normal.{IsNormal};
ghost use Rattle.sf_anneal.specs.Measured.{whole_spans, IsMeasure, IsFloorplan};

use sf_curves::{root_curve, trace};
use sf_model::Design;
use sf_polish::{Expr, Token, plan_of};
use sf_wire::cost;
use std::alloc::{AllocError as NoMemory, Global};

/// The span of each block: its whole list.
pub fn whole_spans(alloc: Global, design: &Design) -> Result<Vec<(u16, u16)>, NoMemory>
    ensures { IfOk result (λ spans. spans.items ≡ whole_spans design.now) }
{
    let mut spans = Vec::new(alloc);
    for block in design.blocks.as_slice() {
        spans.push((0, block.shapes.as_slice().len() as u16))?;
    }
    Ok(spans)
}

/// The trace of the point of least area on the root curve over whole lists, and its cost; none where the
/// curve is empty.
pub fn measure(
    alloc: Global,
    design: &Design,
    spans: &[(u16, u16)],
    tokens: &[Token],
) -> Result<Option<(Expr, u64)>, NoMemory>
    requires normal { IsNormal (block_count design.now) tokens.now }
    requires whole { spans.now ≡ whole_spans design.now }
    ensures measure { IfOk result (IsMeasure design.now tokens.now) }
    ensures floorplan { IfOk result (λ found. IfSome found (λ pair. IsFloorplan design.now pair.0 pair.1)) }
{
    let curve = root_curve(alloc, design, tokens, spans)?;
    let Some(point) = curve.least_area() else {
        return Ok(None);
    };
    let expr = trace(alloc, design, tokens, spans, point)?;
    let plan = plan_of(alloc, &expr)?;
    let cost = cost(alloc, design, &plan)?;
    Ok(Some((expr, cost)))
}
