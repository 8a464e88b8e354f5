//! A slicing tree in a list: how its nodes hang together.

use sf_curves::Direction;
use sf_polish::Token;
use std::alloc::{AllocError as NoMemory, Global};

/// No node.
pub const NOWHERE: u16 = u16::MAX;

/// A node: in which direction it joins which two nodes, where it is no block, and the node above it.
#[derive(Clone, Copy)]
pub struct Links {
    pub direction: Direction,
    pub left: u16,
    pub right: u16,
    pub parent: u16,
}

/// A node that is not linked to any.
const LOOSE: Links = Links {
    direction: Direction::Beside,
    left: NOWHERE,
    right: NOWHERE,
    parent: NOWHERE,
};

/// A slicing tree. The first nodes are the blocks by number. A number past the last node stands for none.
#[derive(Drop)]
pub struct LinkedTree {
    nodes: Vec<Links>,
    root: u16,
    /// What nodes were before they were last linked anew, the last one last, and which the root was.
    changed: Vec<(u16, Links)>,
    old_root: u16,
}

impl LinkedTree {
    /// The tree of an expression of these blocks.
    pub fn of_tokens(alloc: Global, blocks: u16, tokens: &[Token]) -> Result<LinkedTree, NoMemory> {
        let mut nodes = vec![in alloc; LOOSE; usize::from(blocks)]?;
        let mut waiting: Vec<u16> = Vec::new(alloc);
        for token in tokens {
            let node = match *token {
                Token::Block(block) => block,
                Token::Beside => join(&mut nodes, &mut waiting, Direction::Beside)?,
                Token::Above => join(&mut nodes, &mut waiting, Direction::Above)?,
            };
            waiting.push(node)?;
        }
        let root = waiting.pop().unwrap_or(NOWHERE);
        Ok(LinkedTree {
            nodes,
            root,
            changed: Vec::new(alloc),
            old_root: root,
        })
    }

    /// How many nodes there are.
    pub fn len(&self) -> usize {
        self.nodes.len()
    }

    /// The node at the top.
    pub fn root(&self) -> u16 {
        self.root
    }

    /// How a node is linked.
    pub fn at(&self, node: u16) -> Links {
        match self.nodes.get(usize::from(node)) {
            Some(links) => *links,
            None => LOOSE,
        }
    }

    /// Whether a node is another one, or stands below it.
    pub fn is_under(&self, node: u16, top: u16) -> bool {
        let mut node = node;
        for _step in 0..self.nodes.len() {
            if node == top {
                return true;
            }
            if node == NOWHERE {
                return false;
            }
            node = self.at(node).parent;
        }
        false
    }

    /// Links a node anew.
    pub fn put(&mut self, node: u16, links: Links) -> Result<(), NoMemory> {
        if let Some(place) = self.nodes.get_mut(usize::from(node)) {
            let old = *place;
            *place = links;
            self.changed.push((node, old))?;
        }
        Ok(())
    }

    /// Puts a node in the place of another one, below the same node.
    pub fn replace(&mut self, over: u16, old: u16, new: u16) -> Result<(), NoMemory> {
        if over == NOWHERE {
            self.root = new;
        } else {
            let mut links = self.at(over);
            if links.left == old {
                links.left = new;
            } else {
                links.right = new;
            }
            self.put(over, links)?;
        }
        let mut links = self.at(new);
        links.parent = over;
        self.put(new, links)
    }

    /// Lets the tree stand as it is now.
    pub fn keep(&mut self) {
        self.changed.clear();
        self.old_root = self.root;
    }

    /// Makes the tree what it was when it was kept last.
    pub fn restore(&mut self) {
        for _change in 0..self.changed.len() {
            let Some((node, links)) = self.changed.pop() else {
                break;
            };
            if let Some(place) = self.nodes.get_mut(usize::from(node)) {
                *place = links;
            }
        }
        self.root = self.old_root;
    }

    /// Takes over how the nodes of another tree are linked.
    pub fn copy_from(&mut self, other: &LinkedTree) -> Result<(), NoMemory> {
        self.nodes.clear();
        self.nodes.extend_from_slice(&other.nodes)?;
        self.root = other.root;
        Ok(())
    }
}

/// A new node that joins the last two that wait.
fn join(
    nodes: &mut Vec<Links>,
    waiting: &mut Vec<u16>,
    direction: Direction,
) -> Result<u16, NoMemory> {
    let right = waiting.pop().unwrap_or(NOWHERE);
    let left = waiting.pop().unwrap_or(NOWHERE);
    let node = u16::try_from(nodes.len()).unwrap_or(NOWHERE);
    for part in [left, right] {
        if let Some(links) = nodes.get_mut(usize::from(part)) {
            links.parent = node;
        }
    }
    nodes.push(Links {
        direction,
        left,
        right,
        parent: NOWHERE,
    })?;
    Ok(node)
}
