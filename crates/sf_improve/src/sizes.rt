//! The sizes that a room can have, in a list that is filled again and again.

use sf_curves::{Direction, Point};
use std::alloc::{AllocError as NoMemory, Global};

/// The curve of a room, in a part of a list: of two sizes the wider is the lower, and the narrowest comes first.
#[derive(Drop)]
pub struct Sizes {
    list: Vec<Point>,
    from: u32,
    to: u32,
}

impl Sizes {
    /// No sizes.
    pub fn new(alloc: Global) -> Sizes {
        Sizes {
            list: Vec::new(alloc),
            from: 0,
            to: 0,
        }
    }

    /// The points of a curve.
    pub fn of_points(points: Vec<Point>) -> Sizes {
        let to = count_of(&points);
        Sizes {
            list: points,
            from: 0,
            to,
        }
    }

    /// All of them.
    #[inline(always)]
    pub fn as_slice(&self) -> &[Point] {
        match self.list.get(self.from as usize..self.to as usize) {
            Some(sizes) => sizes,
            None => &[],
        }
    }

    /// Fills the list with the curve of two rooms that are joined.
    #[inline(always)]
    pub fn join(
        &mut self,
        first: &Sizes,
        second: &Sizes,
        direction: Direction,
    ) -> Result<(), NoMemory> {
        let (first, second) = (first.as_slice(), second.as_slice());
        self.grow(first.len().saturating_add(second.len()))?;
        match direction {
            Direction::Beside => self.join_beside(first, second),
            Direction::Above => self.join_above(first, second),
        }
        Ok(())
    }

    /// Makes the list at least so long.
    fn grow(&mut self, length: usize) -> Result<(), NoMemory> {
        for _size in self.list.len()..length {
            self.list.push(Point { w: 0, h: 0 })?;
        }
        Ok(())
    }

    /// The curve of two rooms side by side, from the highest on: of two sizes the higher one is exchanged for its
    /// next. It is no part of its caller, so that its loop has all registers.
    #[inline(never)]
    fn join_beside(&mut self, first: &[Point], second: &[Point]) {
        let mut i: usize = 0;
        let mut j: usize = 0;
        self.from = 0;
        self.to = 0;
        for place in self.list.iter_mut() {
            let (Some(one), Some(other)) = (first.get(i), second.get(j)) else {
                break;
            };
            *place = Point {
                w: one.w.wrapping_add(other.w),
                h: one.h.max(other.h),
            };
            i = i.wrapping_add(usize::from(one.h >= other.h));
            j = j.wrapping_add(usize::from(other.h >= one.h));
            self.to = self.to.wrapping_add(1);
        }
    }

    /// The curve of two rooms one above the other, from the widest on, so the list is filled from its end.
    #[inline(never)]
    fn join_above(&mut self, first: &[Point], second: &[Point]) {
        let mut i = first.len().wrapping_sub(1);
        let mut j = second.len().wrapping_sub(1);
        self.to = count_of(&self.list);
        self.from = self.to;
        for place in self.list.iter_mut().rev() {
            let (Some(one), Some(other)) = (first.get(i), second.get(j)) else {
                break;
            };
            *place = Point {
                w: one.w.max(other.w),
                h: one.h.wrapping_add(other.h),
            };
            i = i.wrapping_sub(usize::from(one.w >= other.w));
            j = j.wrapping_sub(usize::from(other.w >= one.w));
            self.from = self.from.wrapping_sub(1);
        }
    }

    /// The narrowest size that is no higher than the limit.
    #[inline(always)]
    pub fn narrowest(&self, limit: u32) -> Option<Point> {
        for size in self.as_slice() {
            if size.h <= limit {
                return Some(*size);
            }
        }
        None
    }

    /// The lowest size that is no wider than the limit.
    #[inline(always)]
    pub fn lowest(&self, limit: u32) -> Option<Point> {
        let mut lowest = None;
        for size in self.as_slice() {
            if size.w > limit {
                break;
            }
            lowest = Some(*size);
        }
        lowest
    }
}

/// How many sizes these are.
#[inline(always)]
fn count_of(sizes: &[Point]) -> u32 {
    u32::try_from(sizes.len()).unwrap_or(u32::MAX)
}
