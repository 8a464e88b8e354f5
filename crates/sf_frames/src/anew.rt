//! The area that a subproblem needs, from curves that are made anew.

ghost use Rattle.std.specs.Prelude.{IfOk};
ghost use Rattle.sf_node.specs.Children.{IsSubproblem};
ghost use Rattle.sf_frames.specs.Groups.{IsNeededOrNone};

use crate::area::area_part;
use crate::groups::group_curves;
use crate::stock::Stock;
use sf_curves::Curve;
use sf_model::Design;
use sf_node::Node;
use std::alloc::{AllocError as NoMemory, Global};

/// Memory for curves that every measurement makes anew, as where a span was halved. No answer depends on what
/// it holds.
#[derive(Drop)]
pub struct Anew {
    alloc: Global,
    curves: Vec<Curve>,
    stock: Stock,
}

impl Anew {
    /// No curve yet.
    pub fn new(alloc: Global) -> Anew {
        Anew {
            alloc,
            curves: Vec::new(alloc),
            stock: Stock::new(alloc),
        }
    }

    /// The area that the items and the unused blocks of a subproblem need at least; none where one of them has
    /// no plan in the outline.
    pub fn needed_area(&mut self, design: &Design, node: &Node) -> Result<Option<u64>, NoMemory>
        requires { IsSubproblem design.now node.now }
        ensures { IfOk result (IsNeededOrNone design.now node.now) }
    {
        group_curves(&mut self.curves, &mut self.stock, self.alloc, design, node)?;
        Ok(area_part(&self.curves))
    }
}
