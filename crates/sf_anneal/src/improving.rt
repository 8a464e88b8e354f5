//! A plan made better.

ghost use Rattle.std.specs.Prelude.{◌≡◌, IfOk, IfSome};
ghost use Rattle.sf_anneal.specs.Measured.{IsFloorplan};
ghost use Rattle.sf_anneal.specs.Starts.{lesser, IsNoDearer};

use crate::measuring::{measure, whole_spans};
use sf_improve::annealed;
use sf_model::Design;
use sf_polish::{Expr, Token, is_normal};
use std::alloc::{AllocError as NoMemory, Global};

/// The second where it costs less.
pub fn lesser(a: Option<(Expr, u64)>, b: Option<(Expr, u64)>) -> Option<(Expr, u64)>
    ensures { result ≡ lesser a b }
{
    match (a, b) {
        (None, b) => b,
        (a, None) => a,
        (Some(a), Some(b)) => Some(if b.1 < a.1 { b } else { a }),
    }
}

/// The plan of these tokens, measured, where they are normal and it fits the outline.
fn measured(
    alloc: Global,
    design: &Design,
    tokens: &[Token],
) -> Result<Option<(Expr, u64)>, NoMemory>
    ensures { IfOk result (λ found. IfSome found (λ pair. IsFloorplan design.now pair.0 pair.1)) }
{
    if !is_normal(tokens, design.block_count()) {
        return Ok(None);
    }
    let spans = whole_spans(alloc, design)?;
    measure(alloc, design, &spans, tokens)
}

/// A floorplan that so many trials come to over the words of a seed in stream 3, from the slicing tree of these
/// tokens on. What they come to is measured. None where they come to none that fits, and where there are no
/// trials.
pub fn improvement(
    alloc: Global,
    design: &Design,
    tokens: &[Token],
    seed: u64,
    trials: u32,
) -> Result<Option<(Expr, u64)>, NoMemory>
    ensures floorplan { IfOk result (λ found. IfSome found (λ pair. IsFloorplan design.now pair.0 pair.1)) }
    ensures unimproved { IfOk result (λ found. trials ≡ 0 → found ≡ None) }
{
    if trials == 0 {
        return Ok(None);
    }
    match annealed(alloc, design, tokens, seed, trials)? {
        Some(tokens) => measured(alloc, design, &tokens),
        None => Ok(None),
    }
}

/// The lesser of a plan, where there is one, and of what so many trials come to over the words of a seed in
/// stream 3, from the slicing tree of these tokens on.
pub fn improve(
    alloc: Global,
    design: &Design,
    tokens: &[Token],
    found: Option<(Expr, u64)>,
    seed: u64,
    trials: u32,
) -> Result<Option<(Expr, u64)>, NoMemory>
    requires { IfSome found (λ pair. IsFloorplan design.now pair.0 pair.1) }
    ensures floorplan { IfOk result (λ better. IfSome better (λ pair. IsFloorplan design.now pair.0 pair.1)) }
    ensures no_dearer { IfOk result (IsNoDearer found) }
    ensures unimproved { IfOk result (λ better. trials ≡ 0 → better ≡ found) }
{
    let better = improvement(alloc, design, tokens, seed, trials)?;
    Ok(lesser(found, better))
}
