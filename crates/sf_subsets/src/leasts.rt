//! The least areas of single blocks.

ghost use Rattle.std.specs.Prelude.{◌≡◌, ◌^◌, ◌<◌, ◌≤◌, length, All, IfOk};
ghost use Rattle.sf_subsets.specs.Covering.{AreLeasts, IsLeastOf};

use sf_curves::{Curve, area};
use sf_model::Design;
use std::alloc::{AllocError as NoMemory, Global};

/// The least area of a shape of the block that lies in the outline; where there is none, an area that no
/// outline has.
fn least_of(alloc: Global, design: &Design, block: u16) -> Result<u64, NoMemory>
    requires { block < length design.now.blocks }
    ensures least { IfOk result (IsLeastOf design.now block) }
    ensures small { IfOk result (λ n. n ≤ 2 ^ 41) }
{
    let curve = Curve::of_shapes_in(Vec::new(alloc), design.shapes_of(block), design.outline)?;
    match curve.least_area() {
        Some(size) => Ok(area(size)),
        None => Ok(1 << 41),
    }
}

/// The same of all blocks.
pub fn leasts_of(alloc: Global, design: &Design) -> Result<Vec<u64>, NoMemory>
    ensures leasts { IfOk result (λ v. AreLeasts design.now v.items) }
    ensures small { IfOk result (λ v. All (λ n. n ≤ 2 ^ 41) v.items) }
    ensures count { IfOk result (λ v. length v.items ≡ length design.now.blocks) }
{
    let mut leasts = Vec::new(alloc);
    for block in 0..design.block_count() {
        leasts.push(least_of(alloc, design, block)?)?;
    }
    Ok(leasts)
}
