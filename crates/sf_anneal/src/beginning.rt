//! What an improvement may begin with.

use sf_polish::{Expr, Tokens};

/// A slicing tree that an improvement may begin with: its tokens, and its plan with its cost where that fits
/// the outline.
#[derive(Drop)]
pub struct Beginning {
    pub tokens: Tokens,
    pub plan: Option<(Expr, u64)>,
}
