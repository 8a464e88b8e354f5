//! Why a text spells no normal expression.

ghost use Rattle.std.specs.Prelude.{◌≡◌};
ghost use Rattle.sf_expr_text.specs.declared.fault.ExprFault.TheVariants.{NoMemory};

use std::alloc::AllocError;
use thiserror::Error;

/// The first fault of a text, with the number of its line. Lines are numbered from 1, and a fault at the end
/// of the text names the last line that holds a word, or 0 where none does.
#[derive(Debug, Drop, Error)]
pub enum ExprFault {
    #[error("the word is no token of these blocks")]
    BadToken(u64),
    #[error("the operands are not more than the operators, or too many at the end")]
    NotBallot(u64),
    #[error("the operator repeats the word before it")]
    NotNormal(u64),
    #[error("the block was named before")]
    RepeatedBlock(u64),
    #[error("a block is not named")]
    MissingBlock(u64),
    #[error("out of memory")]
    NoMemory,
}

impl<T: Drop + Into<AllocError>> From<T> for ExprFault {
    ghost from_gives = { λ _ e. e ≡ NoMemory };

    fn from(_e: T) -> ExprFault {
        ExprFault::NoMemory
    }
}
