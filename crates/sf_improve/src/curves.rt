//! The curves of the nodes of a tree, kept from one tree to the next.

use crate::edits::Changed;
use crate::links::{LinkedTree, NOWHERE};
use crate::sizes::Sizes;
use sf_curves::Curve;
use sf_model::{Design, Outline};
use std::alloc::{AllocError as NoMemory, Global};
use std::mem;

/// Curves aren't cut: no sum of the sides of blocks is as great.
const UNCUT: Outline = Outline {
    w: u32::MAX,
    h: u32::MAX,
};

/// The curve of each node, and the one that it had before the last move, where that changed it. A node is marked
/// where it lies on the way from a change to the top.
#[derive(Drop)]
pub struct Curves {
    of_nodes: Vec<Sizes>,
    old: Vec<Sizes>,
    changed: Vec<u16>,
    marks: Vec<u32>,
    mark: u32,
}

impl Curves {
    /// The curves of a tree of the design's blocks, whose joints stand behind their parts.
    pub fn new(alloc: Global, design: &Design, tree: &LinkedTree) -> Result<Curves, NoMemory> {
        let mut curves = Curves {
            of_nodes: Vec::new(alloc),
            old: Vec::new(alloc),
            changed: Vec::new(alloc),
            marks: vec![in alloc; 0; tree.len()]?,
            mark: 0,
        };
        for block in design.blocks.as_slice() {
            let shapes = block.shapes.as_slice();
            let curve = Curve::of_shapes_in(Vec::new(alloc), shapes, UNCUT)?;
            curves.push(alloc, Sizes::of_points(curve.into_points()))?;
        }
        for joint in design.block_count()..NOWHERE {
            if usize::from(joint) >= tree.len() {
                break;
            }
            curves.push(alloc, Sizes::new(alloc))?;
            curves.renew(tree, joint)?;
        }
        curves.keep();
        Ok(curves)
    }

    /// Adds a node with its curve.
    fn push(&mut self, alloc: Global, sizes: Sizes) -> Result<(), NoMemory> {
        self.of_nodes.push(sizes)?;
        self.old.push(Sizes::new(alloc))?;
        Ok(())
    }

    /// The curve of a node.
    #[inline(always)]
    pub fn of(&self, node: u16) -> Option<&Sizes> {
        self.of_nodes.get(usize::from(node))
    }

    /// Whether the node is marked.
    #[inline(always)]
    pub fn is_marked(&self, node: u16) -> bool {
        match self.marks.get(usize::from(node)) {
            Some(mark) => *mark == self.mark,
            None => false,
        }
    }

    /// Marks a node.
    #[inline(always)]
    fn mark(&mut self, node: u16) {
        if let Some(mark) = self.marks.get_mut(usize::from(node)) {
            *mark = self.mark;
        }
    }

    /// Makes the curve of a joint anew.
    #[inline(always)]
    fn renew(&mut self, tree: &LinkedTree, joint: u16) -> Result<(), NoMemory> {
        let links = tree.at(joint);
        let left = self.of_nodes.get(usize::from(links.left));
        let right = self.of_nodes.get(usize::from(links.right));
        let (Some(left), Some(right)) = (left, right) else {
            return Ok(());
        };
        let Some(sizes) = self.old.get_mut(usize::from(joint)) else {
            return Ok(());
        };
        sizes.join(left, right, links.direction)?;
        if let Some(place) = self.of_nodes.get_mut(usize::from(joint)) {
            mem::swap(place, sizes);
        }
        self.changed.push(joint)?;
        Ok(())
    }

    /// Makes the curves of all joints from two of them on upward anew, the lower ones first, and marks these. Where
    /// both ways meet, or nowhere.
    pub fn renew_up(&mut self, tree: &LinkedTree, changed: Changed) -> Result<u16, NoMemory> {
        self.mark = self.mark.wrapping_add(1);
        let mut joint = changed.first;
        for _step in 0..tree.len() {
            if joint == NOWHERE {
                break;
            }
            self.mark(joint);
            joint = tree.at(joint).parent;
        }
        let meet = self.renew_second(tree, changed.second)?;
        joint = changed.first;
        for _step in 0..tree.len() {
            if joint == NOWHERE {
                break;
            }
            self.renew(tree, joint)?;
            joint = tree.at(joint).parent;
        }
        Ok(meet)
    }

    /// The same on the way from the second joint on, up to one that is marked. That one, or nowhere.
    fn renew_second(&mut self, tree: &LinkedTree, second: u16) -> Result<u16, NoMemory> {
        let mut joint = second;
        for _step in 0..tree.len() {
            if joint == NOWHERE || self.is_marked(joint) {
                break;
            }
            self.mark(joint);
            self.renew(tree, joint)?;
            joint = tree.at(joint).parent;
        }
        Ok(joint)
    }

    /// Lets all stand as it is now.
    pub fn keep(&mut self) {
        self.changed.clear();
    }

    /// Makes all what it was when it was kept last.
    pub fn restore(&mut self) {
        for joint in &self.changed {
            let place = self.of_nodes.get_mut(usize::from(*joint));
            let old = self.old.get_mut(usize::from(*joint));
            if let (Some(place), Some(old)) = (place, old) {
                mem::swap(place, old);
            }
        }
        self.changed.clear();
    }
}
