//! Shapes of a soft block.

ghost use Rattle.std.specs.Prelude.{◌≡◌, ℕ, ◌+◌, ◌^◌, ◌≤◌, ◌↔◌, IsTrue, IfOk, vec_len, map};
ghost use Rattle.sf_model.specs.Limits.{IsShapeChoice};
ghost use Rattle.sf_soft_shapes.specs.Listed.{IsAllowed, IsSoftList, height_at, shape, widths};
ghost use Rattle.sf_soft_shapes.specs.Ends.{IsLowEnough, IsHighEnough};

use crate::fault::ShapeFault;
use sf_model::{MOST_SIDE, Shape};
use std::alloc::{AllocError, Global};

/// Height over width is told in millionths.
const MILLION: u64 = 1_000_000;

/// Whether a block of this width is low enough.
fn is_low_enough(area: u64, most: u64, w: u64) -> bool
    requires area { area ≤ 2 ^ 40 }
    requires some { 1 ≤ w }
    ensures { IsTrue result ↔ IsLowEnough area most w }
{
    let h = area.div_ceil(w);
    h <= MOST_SIDE && h * MILLION <= w.saturating_mul(most)
}

/// Whether a block of this width is high enough.
fn is_high_enough(area: u64, least: u64, w: u64) -> bool
    requires area { area ≤ 2 ^ 40 }
    requires some { 1 ≤ w }
    ensures { IsTrue result ↔ IsHighEnough area least w }
{
    w.saturating_mul(least) <= area.div_ceil(w) * MILLION
}

/// The least width up to the limit at which a block is low enough, or one more than the limit.
fn least_width(area: u64, most: u64) -> u64
    requires { area ≤ 2 ^ 40 }
    ensures some { 1 ≤ result }
    ensures within { result ≤ MOST_SIDE + 1 }
    ensures ends { (w : ℕ) → 1 ≤ w → w ≤ MOST_SIDE → IsLowEnough area most w ↔ (result ≤ w) }
{
    let mut low = 1;
    let mut high = MOST_SIDE + 1;
    while low < high {
        let mid = (low + high) / 2;
        if is_low_enough(area, most, mid) {
            high = mid;
        } else {
            low = mid + 1;
        }
    }
    low
}

/// The greatest width up to the limit at which a block is high enough, or 0.
fn greatest_width(area: u64, least: u64) -> u64
    requires { area ≤ 2 ^ 40 }
    ensures within { result ≤ MOST_SIDE }
    ensures ends { (w : ℕ) → 1 ≤ w → w ≤ MOST_SIDE → IsHighEnough area least w ↔ (w ≤ result) }
{
    let mut low = 0;
    let mut high = MOST_SIDE;
    while low < high {
        let mid = (low + high + 1) / 2;
        if is_high_enough(area, least, mid) {
            low = mid;
        } else {
            high = mid - 1;
        }
    }
    low
}

/// The shapes at widths from `lo` to `hi`, at most `k` of them.
fn shapes_between(
    alloc: Global,
    area: u64,
    k: u16,
    lo: u64,
    hi: u64,
) -> Result<Vec<Shape>, AllocError>
    requires count { (2 ≤ k) × (k ≤ 256) }
    requires some { 1 ≤ lo }
    requires order { lo ≤ hi }
    requires within { hi ≤ MOST_SIDE }
    requires low { height_at area lo ≤ MOST_SIDE }
    ensures { IfOk result (λ shapes. shapes.items ≡ map (λ w. shape w (height_at area w)) (widths k lo hi)) }
{
    let k = u64::from(k);
    let count = hi + 1 - lo;
    let mut shapes = Vec::new(alloc);
    for j in 0..count.min(k) {
        let w = if count <= k {
            lo + j
        } else {
            lo + j * (hi - lo) / (k - 1)
        };
        shapes.push(Shape {
            w: w as u32,
            h: area.div_ceil(w) as u32,
        })?;
    }
    Ok(shapes)
}

/// The shapes of a soft block, in scaled whole units: at each allowed width, or at `k` of them at equal
/// steps, the height that the area needs, rounded up. `least` and `most` bound height over width, in
/// millionths.
pub fn soft_shapes(
    alloc: Global,
    area: u64,
    least: u64,
    most: u64,
    k: u16,
) -> Result<Vec<Shape>, ShapeFault>
    requires area { (1 ≤ area) × (area ≤ 2 ^ 40) }
    requires count { (2 ≤ k) × (k ≤ 256) }
    ensures listed { IfOk result (λ shapes. IsSoftList area least most k shapes.items) }
    ensures choice { IfOk result (λ shapes. IsShapeChoice shapes.items) }
    ensures has_shape { IfOk result (λ shapes. 1 ≤ vec_len shapes) }
    ensures no_shape { result ≡ Err ShapeFault.NoShape → (w : ℕ) → ¬ (IsAllowed area least most w) }
{
    let lo = least_width(area, most);
    let hi = greatest_width(area, least);
    if hi < lo {
        return Err(ShapeFault::NoShape);
    }
    Ok(shapes_between(alloc, area, k, lo, hi)?)
}
