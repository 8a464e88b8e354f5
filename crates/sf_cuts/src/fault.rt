//! Why a placement becomes no plan of a design.

ghost use Rattle.std.specs.Prelude.{◌≡◌};
ghost use Rattle.sf_cuts.specs.declared.fault.CutFault.TheVariants.{NoMemory};

use std::alloc::AllocError;
use thiserror::Error;

/// Why a placement becomes no plan: no slicing tree cuts it, or else a hard block, the first by number, has a
/// size that isn't listed.
#[derive(Clone, Copy, Debug, Error, PartialEq, Eq)]
pub enum CutFault {
    #[error("no slicing tree cuts the placement")]
    NotSlicing,
    #[error("the size of the block isn't listed")]
    Unlisted(u16),
    #[error("out of memory")]
    NoMemory,
}

impl<T: Drop + Into<AllocError>> From<T> for CutFault {
    ghost from_gives = { λ _ e. e ≡ NoMemory };

    fn from(_e: T) -> CutFault {
        CutFault::NoMemory
    }
}
