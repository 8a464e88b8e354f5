//! Why a text is no certificate.

ghost use Rattle.std.specs.Prelude.{◌≡◌};
ghost use Rattle.sf_cert_text.specs.declared.fault.CertFault.TheVariants.{NoMemory};

use std::alloc::AllocError;
use thiserror::Error;

/// The first fault of a text, with the number of its line. Lines are numbered from 1, and a text that ends
/// early has its fault at the last line that holds a word, or at 0 where none does.
#[derive(Clone, Copy, Debug, PartialEq, Eq, Error)]
pub enum CertFault {
    #[error("the line {0} of the header does not stand so")]
    BadHeader(u64),
    #[error("a word in line {0} is no tag")]
    BadTag(u64),
    #[error("the node in line {0} is too deep")]
    TooDeep(u64),
    #[error("the text ends at line {0} inside the tree")]
    Truncated(u64),
    #[error("a word stands behind the tree in line {0}")]
    Trailing(u64),
    #[error("out of memory")]
    NoMemory,
}

impl<T: Drop + Into<AllocError>> From<T> for CertFault {
    ghost from_gives = { λ _ e. e ≡ NoMemory };

    fn from(_e: T) -> CertFault {
        CertFault::NoMemory
    }
}
