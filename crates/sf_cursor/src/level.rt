//! What the way keeps of each step.

/// One step of the way: the value of the subproblem before it, where one was told, and the span that it
/// halved, or none.
#[derive(Clone, Copy)]
pub struct Level {
    pub value: Option<u64>,
    pub span: (u16, u16),
}
