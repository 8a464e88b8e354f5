//! Moves over slicing trees: nodes change places, blocks of like size do, a joint turns, a node is put elsewhere.

use crate::likes::by_size;
use crate::links::{LinkedTree, Links, NOWHERE};
use crate::words::Words;
use sf_curves::Direction;
use sf_model::Design;
use std::alloc::{AllocError as NoMemory, Global};

/// The lowest nodes above which a tree was changed, of which the second may be none.
#[derive(Clone, Copy)]
pub struct Changed {
    pub first: u16,
    pub second: u16,
}

/// Two nodes change places, neither of which stands below the other.
fn exchange(tree: &mut LinkedTree, one: u16, other: u16) -> Result<Option<Changed>, NoMemory> {
    let first = tree.at(one).parent;
    let second = tree.at(other).parent;
    if first == NOWHERE || second == NOWHERE || first == second {
        return Ok(None);
    }
    if tree.is_under(one, other) || tree.is_under(other, one) {
        return Ok(None);
    }
    tree.replace(first, one, other)?;
    tree.replace(second, other, one)?;
    Ok(Some(Changed { first, second }))
}

/// A joint takes the other direction.
fn turn(tree: &mut LinkedTree, joint: u16) -> Result<Option<Changed>, NoMemory> {
    let links = tree.at(joint);
    let direction = match links.direction {
        Direction::Beside => Direction::Above,
        Direction::Above => Direction::Beside,
    };
    tree.put(joint, Links { direction, ..links })?;
    Ok(Some(Changed {
        first: joint,
        second: NOWHERE,
    }))
}

/// A node is taken out with the joint above it, which then joins it with another node in this direction, as
/// the first or the second of both.
fn reinsert(
    tree: &mut LinkedTree,
    node: u16,
    beside: u16,
    direction: Direction,
    first: bool,
) -> Result<Option<Changed>, NoMemory> {
    let joint = tree.at(node).parent;
    if joint == NOWHERE || joint == beside || tree.is_under(beside, node) {
        return Ok(None);
    }
    let links = tree.at(joint);
    let sibling = if links.left == node {
        links.right
    } else {
        links.left
    };
    tree.replace(links.parent, joint, sibling)?;
    let over = tree.at(beside).parent;
    tree.replace(over, beside, joint)?;
    let (left, right) = if first {
        (node, beside)
    } else {
        (beside, node)
    };
    tree.put(
        joint,
        Links {
            direction,
            left,
            right,
            parent: over,
        },
    )?;
    for part in [node, beside] {
        let links = tree.at(part);
        tree.put(
            part,
            Links {
                parent: joint,
                ..links
            },
        )?;
    }
    Ok(Some(Changed {
        first: joint,
        second: links.parent,
    }))
}

/// How far blocks stand from each other at most in the order of sizes that are of like size.
const NEAR: u16 = 8;

/// What moves draw from: how many blocks there are, and their order by size.
#[derive(Drop)]
pub struct Moves {
    blocks: u16,
    by_size: Vec<u16>,
}

impl Moves {
    /// The moves over trees of the blocks of a design.
    pub fn new(alloc: Global, design: &Design) -> Result<Moves, NoMemory> {
        Ok(Moves {
            blocks: design.block_count(),
            by_size: by_size(alloc, design)?,
        })
    }

    /// One move of a tree of these blocks, of which there are two at least: of 15 moves 2 exchange two blocks, 1
    /// exchanges two nodes, 2 turn a joint, 5 put a node elsewhere, which three times of four is a block, and 5
    /// exchange two blocks of like size. None where the words name no move.
    pub fn change(
        &self,
        tree: &mut LinkedTree,
        words: &mut Words,
    ) -> Result<Option<Changed>, NoMemory> {
        let blocks = self.blocks;
        if blocks < 2 || blocks > 320 {
            return Ok(None);
        }
        let nodes = 2 * blocks - 1;
        match words.below(15) {
            0..2 => exchange(tree, words.below(blocks), words.below(blocks)),
            2 => exchange(tree, words.below(nodes), words.below(nodes)),
            3..5 => turn(tree, blocks + words.below(blocks - 1)),
            5..10 => {
                let any = if words.below(4) < 3 { blocks } else { nodes };
                let node = words.below(any);
                let beside = words.below(nodes);
                let sides = words.below(4);
                let direction = if sides < 2 {
                    Direction::Beside
                } else {
                    Direction::Above
                };
                reinsert(tree, node, beside, direction, sides % 2 == 0)
            }
            _ => {
                let place = words.below(blocks);
                let other = place + 1 + words.below(NEAR);
                let one = self.by_size.get(usize::from(place));
                let other = self.by_size.get(usize::from(other));
                match (one, other) {
                    (Some(one), Some(other)) => exchange(tree, *one, *other),
                    _ => Ok(None),
                }
            }
        }
    }
}
