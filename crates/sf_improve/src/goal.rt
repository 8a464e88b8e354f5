//! What a plan counts that may stand out of its outline.

use sf_curves::{Point, area};
use sf_model::{Design, Outline, Weights};

/// The size of a plan, and how far it stands out of the outline: not at all where that is 0.
#[derive(Clone, Copy)]
pub struct Extent {
    pub size: Point,
    pub excess: u64,
}

/// The outline, the weights, and the price of what stands out.
#[derive(Clone, Copy)]
pub struct Goal {
    outline: Outline,
    weights: Weights,
    price: u64,
}

impl Goal {
    /// The goal of a design, where what stands out has the least price.
    pub fn new(design: &Design) -> Goal {
        Goal {
            outline: design.outline,
            weights: design.weights,
            price: 1,
        }
    }

    /// The area of the outline.
    fn room(&self) -> u64 {
        area(Point {
            w: self.outline.w,
            h: self.outline.h,
        })
    }

    /// Whether wires count.
    pub fn counts_wires(&self) -> bool {
        self.weights.wire > 0
    }

    /// What wires of this length count.
    pub fn of_wires(&self, length: u64) -> u64 {
        u64::from(self.weights.wire).saturating_mul(length)
    }

    /// How far a size stands out: the area of a strip as long as each side of the outline that it passes.
    fn excess(&self, size: Point) -> u64 {
        let wide = size.w.saturating_sub(self.outline.w);
        let high = size.h.saturating_sub(self.outline.h);
        let across = u64::from(wide) * u64::from(self.outline.h);
        across.saturating_add(u64::from(high) * u64::from(self.outline.w))
    }

    /// The first best of the sizes that a plan can have: of those that fit the one of least area, and where none
    /// does the one that stands out least.
    pub fn best_of(&self, sizes: &[Point]) -> Option<Extent> {
        match self.least_within(sizes) {
            Some(size) => Some(Extent { size, excess: 0 }),
            None => self.least_outside(sizes),
        }
    }

    /// The first size of least area that fits.
    fn least_within(&self, sizes: &[Point]) -> Option<Point> {
        let mut best = None;
        let mut least = u64::MAX;
        for size in sizes {
            let fits = size.w <= self.outline.w && size.h <= self.outline.h;
            if fits && area(*size) < least {
                least = area(*size);
                best = Some(*size);
            }
        }
        best
    }

    /// The first size that stands out least.
    fn least_outside(&self, sizes: &[Point]) -> Option<Extent> {
        let mut best: Option<Extent> = None;
        for size in sizes {
            let excess = self.excess(*size);
            match best {
                Some(found) if found.excess <= excess => {}
                _ => {
                    best = Some(Extent {
                        size: *size,
                        excess,
                    });
                }
            }
        }
        best
    }

    /// What a plan counts without its wires. One that stands out counts as if it filled the outline, and its
    /// price: so it is never cheaper by its area than one that fits.
    pub fn without_wires(&self, extent: Extent) -> u64 {
        let room = if extent.excess == 0 {
            area(extent.size)
        } else {
            self.room()
        };
        let priced = self.price.saturating_mul(extent.excess);
        u64::from(self.weights.area)
            .saturating_mul(room)
            .saturating_add(priced)
    }

    /// What a threshold may fall from, at a plan of this size with wires of this length: its cost, which is at
    /// most that of the outline where wires don't count.
    pub fn height(&self, size: Point, wires: u64) -> u64 {
        let weight = u64::from(self.weights.area);
        let rooms = weight.saturating_mul(area(size));
        if self.counts_wires() {
            return rooms.saturating_add(self.of_wires(wires));
        }
        rooms.min(weight.saturating_mul(self.room()))
    }

    /// Sets the price by that height: a plan that stands out by half of the outline counts twice.
    pub fn set_price(&mut self, height: u64) {
        self.price = (height.saturating_mul(2) / self.room().max(1)).max(1);
    }
}

/// Whether blocks may fit the outline: each has a shape that does, and their least areas are no more than it has.
pub fn may_fit(design: &Design) -> bool {
    let outline = design.outline;
    let mut total: u64 = 0;
    for block in design.blocks.as_slice() {
        let mut least: Option<u64> = None;
        for shape in block.shapes.as_slice() {
            if shape.w <= outline.w && shape.h <= outline.h {
                let room = area(*shape);
                least = Some(least.map_or(room, |found| found.min(room)));
            }
        }
        match least {
            Some(room) => total = total.saturating_add(room),
            None => return false,
        }
    }
    total <= u64::from(outline.w) * u64::from(outline.h)
}
