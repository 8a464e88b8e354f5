//! Why a block has no list of shapes.

ghost use Rattle.std.specs.Prelude.{◌≡◌};
ghost use Rattle.sf_soft_shapes.specs.declared.fault.ShapeFault.TheVariants.{NoMemory};

use std::alloc::AllocError;

/// Why a block has no list of shapes.
#[derive(Clone, Copy, Debug, PartialEq, Eq)]
pub enum ShapeFault {
    /// No whole width is allowed.
    NoShape,
    NoMemory,
}

impl<T: Drop + Into<AllocError>> From<T> for ShapeFault {
    ghost from_gives = { λ _ e. e ≡ NoMemory };

    fn from(_e: T) -> ShapeFault {
        ShapeFault::NoMemory
    }
}
