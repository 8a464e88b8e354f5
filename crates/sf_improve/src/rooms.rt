//! The rooms of the nodes of a tree, kept from one tree to the next.

use crate::curves::Curves;
use crate::edits::Changed;
use crate::leaves::Leaves;
use crate::links::{LinkedTree, NOWHERE};
use sf_curves::{Direction, Point};
use std::alloc::{AllocError as NoMemory, Global};

/// A doubled point of a plan. No sum of the sides of blocks is as great as 2^29.
pub type Centre = (i32, i32);

/// The room of a node: the doubled point in its lower left corner, and a size that its curve has.
#[derive(Clone, Copy)]
struct Room {
    node: u16,
    corner: Centre,
    size: Point,
}

impl Room {
    /// The doubled point in the middle.
    #[inline(always)]
    fn centre(&self) -> Centre {
        let (x, y) = self.corner;
        let across = x.wrapping_add(self.size.w.cast_signed());
        let upward = y.wrapping_add(self.size.h.cast_signed());
        (across, upward)
    }
}

/// The size of each node and the centre of each block, as they are and as they were kept last, and which blocks
/// moved.
#[derive(Drop)]
pub struct Rooms {
    leaves: Leaves,
    sizes: Vec<Point>,
    old_sizes: Vec<Point>,
    centres: Vec<Centre>,
    old_centres: Vec<Centre>,
    moved: Vec<u16>,
    waiting: Vec<Room>,
}

impl Rooms {
    /// No rooms yet, for a tree of these blocks.
    pub fn new(alloc: Global, blocks: u16, tree: &LinkedTree) -> Result<Rooms, NoMemory> {
        let none = Point { w: 0, h: 0 };
        Ok(Rooms {
            leaves: Leaves::new(alloc, blocks, tree)?,
            sizes: vec![in alloc; none; tree.len()]?,
            old_sizes: vec![in alloc; none; tree.len()]?,
            centres: vec![in alloc; (0, 0); usize::from(blocks)]?,
            old_centres: vec![in alloc; (0, 0); usize::from(blocks)]?,
            moved: Vec::new(alloc),
            waiting: Vec::new(alloc),
        })
    }

    /// The centres of the blocks.
    pub fn centres(&self) -> &[Centre] {
        &self.centres
    }

    /// What these were when they were kept last.
    pub fn old_centres(&self) -> &[Centre] {
        &self.old_centres
    }

    /// The blocks that may have moved.
    pub fn moved(&self) -> &[u16] {
        &self.moved
    }

    /// Lays a tree of this size. Where neither a node is marked nor its size is another one, the rooms below it
    /// are as before, and only shifted.
    pub fn lay(&mut self, tree: &LinkedTree, curves: &Curves, size: Point) -> Result<(), NoMemory> {
        self.moved.clear();
        self.waiting.clear();
        let root = Room {
            node: tree.root(),
            corner: (0, 0),
            size,
        };
        self.take(curves, root)?;
        for _step in 0..tree.len() {
            let Some(room) = self.waiting.pop() else {
                break;
            };
            self.divide(tree, curves, room)?;
        }
        Ok(())
    }

    /// Gives a node its room: a joint waits until that is divided.
    #[inline(always)]
    fn take(&mut self, curves: &Curves, room: Room) -> Result<(), NoMemory> {
        let Some(size) = self.sizes.get_mut(usize::from(room.node)) else {
            return Ok(());
        };
        if let Some(centre) = self.centres.get_mut(usize::from(room.node)) {
            *size = room.size;
            *centre = room.centre();
            self.moved.push(room.node)?;
        } else if *size == room.size && !curves.is_marked(room.node) {
            self.shift(room)?;
        } else {
            *size = room.size;
            self.waiting.push(room)?;
        }
        Ok(())
    }

    /// Shifts all blocks below a node to where its room is now, by as much as the first of them, which lies in the
    /// room's corner.
    #[inline(always)]
    fn shift(&mut self, room: Room) -> Result<(), NoMemory> {
        let (first, last) = self.leaves.ends_of(room.node);
        let size = self.sizes.get(usize::from(first));
        let old = self.centres.get(usize::from(first));
        let (Some(size), Some(old)) = (size, old) else {
            return Ok(());
        };
        let (x, y) = Room {
            size: *size,
            ..room
        }
        .centre();
        let (across, upward) = (x.wrapping_sub(old.0), y.wrapping_sub(old.1));
        if across == 0 && upward == 0 {
            return Ok(());
        }
        let mut block = first;
        for _step in 0..self.centres.len() {
            let Some(centre) = self.centres.get_mut(usize::from(block)) else {
                break;
            };
            *centre = (centre.0.wrapping_add(across), centre.1.wrapping_add(upward));
            self.moved.push(block)?;
            if block == last {
                break;
            }
            block = self.leaves.next(block);
        }
        Ok(())
    }

    /// Divides the room of a joint between its parts.
    #[inline(always)]
    fn divide(&mut self, tree: &LinkedTree, curves: &Curves, room: Room) -> Result<(), NoMemory> {
        let Room { node, corner, size } = room;
        let links = tree.at(node);
        let (Some(left), Some(right)) = (curves.of(links.left), curves.of(links.right)) else {
            return Ok(());
        };
        let (first, second) = match links.direction {
            Direction::Beside => (left.narrowest(size.h), right.narrowest(size.h)),
            Direction::Above => (left.lowest(size.w), right.lowest(size.w)),
        };
        let (first, second) = (first.unwrap_or(size), second.unwrap_or(size));
        let (x, y) = corner;
        let other = match links.direction {
            Direction::Beside => (x.wrapping_add(first.w.cast_signed().wrapping_mul(2)), y),
            Direction::Above => (x, y.wrapping_add(first.h.cast_signed().wrapping_mul(2))),
        };
        let left = Room {
            node: links.left,
            corner,
            size: first,
        };
        let right = Room {
            node: links.right,
            corner: other,
            size: second,
        };
        self.take(curves, left)?;
        self.take(curves, right)
    }

    /// Lets all stand as it is now. What changed in the tree lies above two joints, whose ways upward meet here.
    pub fn keep(&mut self, tree: &LinkedTree, changed: Changed, meet: u16) -> Result<(), NoMemory> {
        self.leaves.join_up(tree, changed.second, meet);
        self.leaves.join_up(tree, changed.first, NOWHERE);
        copy(&mut self.old_sizes, &self.sizes)?;
        copy(&mut self.old_centres, &self.centres)
    }

    /// Makes all what it was when it was kept last.
    pub fn restore(&mut self) -> Result<(), NoMemory> {
        copy(&mut self.sizes, &self.old_sizes)?;
        copy(&mut self.centres, &self.old_centres)
    }
}

/// Makes a list the same as another one.
fn copy<T: Copy>(list: &mut Vec<T>, other: &[T]) -> Result<(), NoMemory> {
    list.clear();
    list.extend_from_slice(other)
}
