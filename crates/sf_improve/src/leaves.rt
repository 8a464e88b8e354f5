//! The blocks below each node of a tree, in the order in which they stand in it.

use crate::links::{LinkedTree, NOWHERE};
use std::alloc::{AllocError as NoMemory, Global};

/// All blocks in a chain in which those below a node follow one another, and the first and the last of each node.
#[derive(Drop)]
pub struct Leaves {
    ends: Vec<(u16, u16)>,
    next: Vec<u16>,
}

impl Leaves {
    /// The chain of a tree of these blocks, whose joints stand behind their parts.
    pub fn new(alloc: Global, blocks: u16, tree: &LinkedTree) -> Result<Leaves, NoMemory> {
        let mut leaves = Leaves {
            ends: Vec::new(alloc),
            next: vec![in alloc; NOWHERE; usize::from(blocks)]?,
        };
        for block in 0..blocks {
            leaves.ends.push((block, block))?;
        }
        for joint in blocks..NOWHERE {
            if usize::from(joint) >= tree.len() {
                break;
            }
            leaves.ends.push((NOWHERE, NOWHERE))?;
            leaves.join(tree, joint);
        }
        Ok(leaves)
    }

    /// The first and the last block below a node.
    #[inline(always)]
    pub fn ends_of(&self, node: u16) -> (u16, u16) {
        match self.ends.get(usize::from(node)) {
            Some(ends) => *ends,
            None => (NOWHERE, NOWHERE),
        }
    }

    /// The block behind another one.
    #[inline(always)]
    pub fn next(&self, block: u16) -> u16 {
        match self.next.get(usize::from(block)) {
            Some(next) => *next,
            None => NOWHERE,
        }
    }

    /// Hangs the blocks of the second part of a joint behind those of the first.
    fn join(&mut self, tree: &LinkedTree, joint: u16) {
        let links = tree.at(joint);
        let (first, end) = self.ends_of(links.left);
        let (begin, last) = self.ends_of(links.right);
        if let Some(next) = self.next.get_mut(usize::from(end)) {
            *next = begin;
        }
        if let Some(ends) = self.ends.get_mut(usize::from(joint)) {
            *ends = (first, last);
        }
    }

    /// The same for the joints from this one on upward, up to another one or to the top.
    pub fn join_up(&mut self, tree: &LinkedTree, from: u16, to: u16) {
        let mut joint = from;
        for _step in 0..tree.len() {
            if joint == NOWHERE || joint == to {
                break;
            }
            self.join(tree, joint);
            joint = tree.at(joint).parent;
        }
    }
}
