//! Blocks in the order of their sizes.

use sf_curves::area;
use sf_model::Design;
use std::alloc::{AllocError as NoMemory, Global};

/// The blocks by the least area of their shapes, then by their first width, then by number.
pub fn by_size(alloc: Global, design: &Design) -> Result<Vec<u16>, NoMemory> {
    let mut sizes: Vec<(u64, u32, u16)> = Vec::new(alloc);
    let mut number: u16 = 0;
    for block in design.blocks.as_slice() {
        let shapes = block.shapes.as_slice();
        let mut least = u64::MAX;
        for shape in shapes {
            least = least.min(area(*shape));
        }
        let width = match shapes.first() {
            Some(shape) => shape.w,
            None => 0,
        };
        sizes.push((least, width, number))?;
        number = number.wrapping_add(1);
    }
    sizes.sort_unstable();
    let mut order = Vec::new(alloc);
    for (_, _, block) in &sizes {
        order.push(*block)?;
    }
    Ok(order)
}
