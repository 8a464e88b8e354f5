//! Tokens, and plans in postfix.

ghost use Rattle.std.specs.Prelude.{◌≡◌};

use sf_model::{Items, Shapes};

/// An operand or an operator of a plan in postfix. An operator joins the last two items: the last one
/// stands to the right of the other (`Beside`), or on top of it (`Above`).
#[derive(Clone, Copy, Debug, PartialEq, Eq)]
pub enum Token {
    Beside,
    Above,
    Block(u16),
}

impl Token {
    ghost use Rattle.sf_polish.specs.Normal.{is_operand, same_operator};

    /// Whether the token is a block.
    pub fn is_operand(self) -> bool
        ensures { result ≡ is_operand self }
    {
        matches!(self, Token::Block(_))
    }

    /// Whether both tokens are one operator.
    pub fn is_same_operator(self, other: Token) -> bool
        ensures { result ≡ same_operator self other }
    {
        match (self, other) {
            (Token::Beside, Token::Beside) => true,
            (Token::Above, Token::Above) => true,
            _ => false,
        }
    }
}

/// A list of tokens.
pub type Tokens = Items<Token>;

/// A plan in postfix, and the shape of each block by number, in scaled whole units.
#[derive(Drop)]
pub struct Expr {
    pub tokens: Tokens,
    pub shapes: Shapes,
}
