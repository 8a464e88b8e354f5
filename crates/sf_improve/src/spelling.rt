//! The normalised Polish expression of a tree in a list.

use crate::links::LinkedTree;
use sf_curves::{Direction, operator};
use sf_polish::Token;
use std::alloc::{AllocError as NoMemory, Global};

/// What is still to be written.
#[derive(Clone, Copy)]
enum Task {
    /// A node in a chain of joints of one direction, and whether the chain begins with it.
    Node(u16, Direction, bool),
    Operator(Direction),
}

/// Adds what a node of a chain is written as: joints of the chain's own direction are taken apart, so that
/// no operator follows its like.
fn push_parts(
    tasks: &mut Vec<Task>,
    tokens: &mut Vec<Token>,
    tree: &LinkedTree,
    blocks: u16,
    node: u16,
    chain: Direction,
    first: bool,
) -> Result<(), NoMemory> {
    let links = tree.at(node);
    if node >= blocks && links.direction == chain {
        tasks.push(Task::Node(links.right, chain, false))?;
        tasks.push(Task::Node(links.left, chain, first))?;
        return Ok(());
    }
    if !first {
        tasks.push(Task::Operator(chain))?;
    }
    if node < blocks {
        tokens.push(Token::Block(node))?;
        return Ok(());
    }
    tasks.push(Task::Node(links.right, links.direction, false))?;
    tasks.push(Task::Node(links.left, links.direction, true))?;
    Ok(())
}

/// The expression of a tree of these blocks.
pub fn tokens_of(alloc: Global, tree: &LinkedTree, blocks: u16) -> Result<Vec<Token>, NoMemory> {
    let mut tokens = Vec::new(alloc);
    let mut tasks = Vec::new(alloc);
    let root = tree.root();
    tasks.push(Task::Node(root, tree.at(root).direction, true))?;
    for _step in 0..2 * usize::from(blocks) * 2 {
        let Some(task) = tasks.pop() else {
            break;
        };
        match task {
            Task::Operator(direction) => tokens.push(operator(direction))?,
            Task::Node(node, chain, first) => push_parts(
                &mut tasks,
                &mut tokens,
                tree,
                blocks,
                node,
                chain,
                first,
            )?,
        }
    }
    Ok(tokens)
}
