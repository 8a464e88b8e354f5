//! A bound of one value, and subproblems by the places of their children.

ghost use Rattle.std.specs.Prelude.{IfOk};
ghost use Rattle.sf_node.specs.Children.{IsSubproblem};

use sf_model::Design;
use sf_node::{Node, Values};
use std::alloc::{AllocError, Global};

/// Each subproblem has the value 7.
pub struct Seven;

impl Values for Seven {
    ghost value = { λ values design node. 7 };
}

/// The child with one more token at this place, or the subproblem itself where none stands there.
fn child(node: &Node, design: &Design, place: usize) -> Result<Node, AllocError>
    requires { IsSubproblem design.now node.now }
    ensures { IfOk result (IsSubproblem design.now) }
{
    let mut children = node.extend_children(design)?;
    if place < children.len() {
        Ok(children.remove(place))
    } else {
        node.copy()
    }
}

/// The subproblem that is reached from the root over the children at these places.
pub fn node_at(alloc: Global, design: &Design, places: &[usize]) -> Result<Node, AllocError>
    ensures { IfOk result (IsSubproblem design.now) }
{
    let mut node = Node::root(alloc, design)?;
    for place in places {
        node = child(&node, design, *place)?;
    }
    Ok(node)
}
