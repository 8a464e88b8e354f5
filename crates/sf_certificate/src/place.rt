//! Where a tag stands in a tree, as far as the shape of the tree goes.

/// What the tokens on the way end in. At the root, where there are none, it is as after a block.
#[derive(Clone, Copy, PartialEq, Eq)]
pub enum Ending {
    Block,
    Beside,
    Above,
}

/// How many steps lead to a subproblem, and what the tokens among them come to.
#[derive(Clone, Copy)]
pub struct Place {
    pub depth: u16,
    pub operands: u16,
    pub operators: u16,
    pub ending: Ending,
}
