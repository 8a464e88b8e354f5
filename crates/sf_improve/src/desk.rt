//! A slicing tree with its curves, rooms and wires, on which moves are tried.

use crate::curves::Curves;
use crate::edits::{Changed, Moves};
use crate::goal::{Extent, Goal};
use crate::links::{LinkedTree, NOWHERE};
use crate::rooms::Rooms;
use crate::wires::Wires;
use crate::words::Words;
use sf_model::Design;
use sf_polish::Token;
use std::alloc::{AllocError as NoMemory, Global};

/// What a plan counts, and whether it fits the outline.
#[derive(Clone, Copy)]
pub struct Value {
    pub counts: u64,
    pub fits: bool,
}

/// A tree with what belongs to it, and the moves that it is changed by.
#[derive(Drop)]
pub struct Desk {
    moves: Moves,
    goal: Goal,
    tree: LinkedTree,
    curves: Curves,
    rooms: Rooms,
    wires: Wires,
}

impl Desk {
    /// A desk with the tree of an expression.
    pub fn new(alloc: Global, design: &Design, tokens: &[Token]) -> Result<Desk, NoMemory> {
        let blocks = design.block_count();
        let tree = LinkedTree::of_tokens(alloc, blocks, tokens)?;
        let curves = Curves::new(alloc, design, &tree)?;
        let mut rooms = Rooms::new(alloc, blocks, &tree)?;
        let goal = Goal::new(design);
        if let Some(extent) = extent_of(&tree, &curves, &goal) {
            rooms.lay(&tree, &curves, extent.size)?;
            let all = Changed {
                first: tree.root(),
                second: NOWHERE,
            };
            rooms.keep(&tree, all, NOWHERE)?;
        }
        let wires = Wires::new(alloc, design, rooms.centres())?;
        Ok(Desk {
            moves: Moves::new(alloc, design)?,
            goal,
            tree,
            curves,
            rooms,
            wires,
        })
    }

    /// The tree on the desk.
    pub fn tree(&self) -> &LinkedTree {
        &self.tree
    }

    /// Sets the price of what stands out, and answers what thresholds fall from, both by the tree on the desk.
    pub fn begin(&mut self) -> u64 {
        let Some(extent) = extent_of(&self.tree, &self.curves, &self.goal) else {
            return 0;
        };
        let height = self.goal.height(extent.size, self.wires.total());
        self.goal.set_price(height);
        height
    }

    /// What the tree counts.
    pub fn value(&self) -> Option<Value> {
        let extent = extent_of(&self.tree, &self.curves, &self.goal)?;
        Some(self.value_of(extent))
    }

    /// What the tree counts where it has this extent.
    fn value_of(&self, extent: Extent) -> Value {
        let wires = self.goal.of_wires(self.wires.total());
        Value {
            counts: self.goal.without_wires(extent).saturating_add(wires),
            fits: extent.excess == 0,
        }
    }

    /// What the tree counts after a move, where that is no more than the limit.
    fn value_within(&mut self, limit: u64) -> Result<Option<Value>, NoMemory> {
        let Some(extent) = extent_of(&self.tree, &self.curves, &self.goal) else {
            return Ok(None);
        };
        let rooms = self.goal.without_wires(extent);
        if rooms > limit {
            return Ok(None);
        }
        if self.goal.counts_wires() {
            self.rooms.lay(&self.tree, &self.curves, extent.size)?;
            let (old, centres) = (self.rooms.old_centres(), self.rooms.centres());
            self.wires.renew_moved(old, centres, self.rooms.moved());
        }
        let value = self.value_of(extent);
        Ok((value.counts <= limit).then_some(value))
    }

    /// Tries a move, and keeps it where the plan counts at most so much then: what it counts.
    pub fn try_move(&mut self, words: &mut Words, limit: u64) -> Result<Option<Value>, NoMemory> {
        let Some(changed) = self.moves.change(&mut self.tree, words)? else {
            return Ok(None);
        };
        let meet = self.curves.renew_up(&self.tree, changed)?;
        let value = self.value_within(limit)?;
        match value {
            Some(_) => self.keep(changed, meet)?,
            None => self.restore()?,
        }
        Ok(value)
    }

    /// Lets all stand as it is now. What changed lies above two joints, whose ways upward meet here.
    fn keep(&mut self, changed: Changed, meet: u16) -> Result<(), NoMemory> {
        self.tree.keep();
        self.wires.keep();
        self.curves.keep();
        self.rooms.keep(&self.tree, changed, meet)
    }

    /// Makes all what it was when it was kept last.
    fn restore(&mut self) -> Result<(), NoMemory> {
        self.tree.restore();
        self.wires.restore();
        self.curves.restore();
        self.rooms.restore()
    }
}

/// The extent of a tree that counts.
fn extent_of(tree: &LinkedTree, curves: &Curves, goal: &Goal) -> Option<Extent> {
    let curve = curves.of(tree.root())?;
    goal.best_of(curve.as_slice())
}
