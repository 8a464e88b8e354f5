//! A walk over the whole tree of two blocks, of which the first has two shapes.

ghost use Rattle.sf_certificate.specs.Marks.{MaySplit};

use crate::nodes::Seven;
use sf_certificate::Tag;
use sf_cursor::Cursor;
use sf_model::Design;
use sf_node::Step::{Above, Beside, Block as Named, Left, Right};
use sf_node::{Node, Part, Step};
use sf_test_designs::{FLAT, NARROW, SQUARE, WIDE, bare, block, block_of};
use std::alloc::{AllocError, Global};

/// A block 2x3 or 3x2 and a block 2x2.
fn two_blocks(alloc: Global) -> Result<Design, AllocError> {
    let first = block_of(alloc, vec![in alloc; NARROW, FLAT]?)?;
    let second = block(alloc, SQUARE)?;
    bare(alloc, vec![in alloc; first, second]?, WIDE, 1)
}

/// A split of the first block where all tokens are there and it has two shapes.
fn tag_of(node: &Node) -> Tag
    ensures { MaySplit result node.now }
{
    if !node.is_complete() {
        Tag::Extend
    } else if node.can_split(0) {
        Tag::Split(0)
    } else {
        Tag::Closed(Part::Full)
    }
}

/// The steps of each subproblem in turn, and the span of the first block.
const ROWS: [(&[Step], (u16, u16)); 17] = [
    (&[], (0, 2)),
    (&[Named(0)], (0, 2)),
    (&[Named(0), Named(1)], (0, 2)),
    (&[Named(0), Named(1), Beside], (0, 2)),
    (&[Named(0), Named(1), Beside, Left(0)], (0, 1)),
    (&[Named(0), Named(1), Beside, Right(0)], (1, 2)),
    (&[Named(0), Named(1), Above], (0, 2)),
    (&[Named(0), Named(1), Above, Left(0)], (0, 1)),
    (&[Named(0), Named(1), Above, Right(0)], (1, 2)),
    (&[Named(1)], (0, 2)),
    (&[Named(1), Named(0)], (0, 2)),
    (&[Named(1), Named(0), Beside], (0, 2)),
    (&[Named(1), Named(0), Beside, Left(0)], (0, 1)),
    (&[Named(1), Named(0), Beside, Right(0)], (1, 2)),
    (&[Named(1), Named(0), Above], (0, 2)),
    (&[Named(1), Named(0), Above, Left(0)], (0, 1)),
    (&[Named(1), Named(0), Above, Right(0)], (1, 2)),
];

/// Whether the cursor comes to these subproblems, and to no more.
fn walks_so(alloc: Global) -> Result<bool, AllocError> {
    let design = two_blocks(alloc)?;
    let mut cursor = Cursor::new(alloc, &design, &Seven)?;
    let mut more = true;
    for (steps, span) in ROWS {
        let node = cursor.node();
        if !more || node.steps() != steps || node.spans() != [span, (0, 1)].as_slice() {
            return Ok(false);
        }
        let tag = tag_of(node);
        more = cursor.follow(&design, &Seven, tag, Some(7))?;
    }
    Ok(!more)
}

/// The cursor comes to each subproblem once, in preorder.
#[test]
fn walks_in_preorder(rt: HostRuntime) {
    assert!(rt; walks_so(rt.alloc()) == Ok(true));
}
