//! Why a text stands for nothing.

ghost use Rattle.std.specs.Prelude.{◌≡◌};
ghost use Rattle.sf_yal.specs.declared.fault.YalFault.TheVariants.{NoMemory};

use sf_lex::NumberFault;
use sf_model::Name;
use std::alloc::AllocError;
use thiserror::Error;

/// The first fault of a text, with the number of its statement's line first. A statement's line is that
/// of its first word.
#[derive(Debug, Drop, Error)]
pub enum YalFault {
    /// The text breaks off inside a comment, a statement, a list or a module. The line is the last one
    /// with anything but blanks and comments, or 0.
    #[error("the text ends early")]
    Truncated(u64),
    #[error("the statement has no form of such a file, or stands at a place where it may not")]
    BadStatement(u64),
    #[error("a number is not one that can be read")]
    BadNumber(u64, NumberFault),
    /// An instance's module has a box with a side of 0.
    #[error("a side is 0")]
    ZeroSide(u64),
    #[error("no module is of the type PARENT")]
    NoParent,
    #[error("a second module is of the type PARENT")]
    TwoParents(u64),
    /// An instance's module is none of the text, or the parent.
    #[error("a module is not known")]
    UnknownModule(u64, Name),
    #[error("out of memory")]
    NoMemory,
}

impl<T: Drop + Into<AllocError>> From<T> for YalFault {
    ghost from_gives = { λ _ e. e ≡ NoMemory };

    fn from(_e: T) -> YalFault {
        YalFault::NoMemory
    }
}
