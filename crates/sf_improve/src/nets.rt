//! How long the wire of a net is between the centres of its blocks.

use crate::rooms::Centre;
use sf_model::{Design, Net, Pin};
use std::alloc::{AllocError as NoMemory, Global};

/// The least box round some doubled points.
#[derive(Clone, Copy)]
pub struct Bounds {
    left: i64,
    right: i64,
    lower: i64,
    upper: i64,
}

impl Bounds {
    /// The box of no points.
    const NONE: Bounds = Bounds {
        left: i64::MAX,
        right: i64::MIN,
        lower: i64::MAX,
        upper: i64::MIN,
    };

    /// The box of one point more.
    #[inline(always)]
    fn with(self, x: i64, y: i64) -> Bounds {
        Bounds {
            left: self.left.min(x),
            right: self.right.max(x),
            lower: self.lower.min(y),
            upper: self.upper.max(y),
        }
    }

    /// The box of the centre of one block more.
    #[inline(always)]
    fn with_centre(self, (x, y): Centre) -> Bounds {
        self.with(i64::from(x), i64::from(y))
    }

    /// Whether there are no points.
    pub fn is_none(&self) -> bool {
        self.left > self.right
    }

    /// The half perimeter round one point at least.
    #[inline(always)]
    pub fn half_perimeter(&self) -> u64 {
        let across = self.right.wrapping_sub(self.left);
        let upward = self.upper.wrapping_sub(self.lower);
        across.wrapping_add(upward).cast_unsigned()
    }
}

/// The blocks of a net, and the box of its pads.
pub fn pins_of(alloc: Global, design: &Design, net: &Net) -> Result<(Vec<u16>, Bounds), NoMemory> {
    let mut blocks = Vec::new(alloc);
    let mut pads = Bounds::NONE;
    for pin in net.pins.as_slice() {
        match *pin {
            Pin::Block(block) => blocks.push(block)?,
            Pin::Pad(pad) => {
                if let Some(pad) = design.pads.as_slice().get(usize::from(pad)) {
                    pads = pads.with(2 * i64::from(pad.x), 2 * i64::from(pad.y));
                }
            }
        }
    }
    Ok((blocks, pads))
}

/// A net of two blocks and no pad.
#[derive(Clone, Copy)]
pub struct Pair {
    pub one: u16,
    pub other: u16,
    pub weight: u64,
}

impl Pair {
    /// How long its wire is, as often as its weight says.
    #[inline(always)]
    pub fn length(&self, centres: &[Centre]) -> u64 {
        let one = centres.get(usize::from(self.one));
        let other = centres.get(usize::from(self.other));
        let (Some(one), Some(other)) = (one, other) else {
            return 0;
        };
        let across = u64::from(one.0.wrapping_sub(other.0).unsigned_abs());
        let upward = u64::from(one.1.wrapping_sub(other.1).unsigned_abs());
        across.wrapping_add(upward).wrapping_mul(self.weight)
    }
}

/// Another net with blocks: two of them, which may be one, the others, and the box of its pads.
#[derive(Drop)]
pub struct Group {
    pub one: u16,
    pub other: u16,
    pub others: Vec<u16>,
    pub pads: Bounds,
    pub weight: u64,
}

impl Group {
    /// How long its wire is, as often as its weight says.
    #[inline(always)]
    pub fn length(&self, centres: &[Centre]) -> u64 {
        let one = centres.get(usize::from(self.one));
        let other = centres.get(usize::from(self.other));
        let (Some(one), Some(other)) = (one, other) else {
            return 0;
        };
        let mut bounds = self.pads.with_centre(*one).with_centre(*other);
        for block in &self.others {
            if let Some(centre) = centres.get(usize::from(*block)) {
                bounds = bounds.with_centre(*centre);
            }
        }
        bounds.half_perimeter().wrapping_mul(self.weight)
    }
}
