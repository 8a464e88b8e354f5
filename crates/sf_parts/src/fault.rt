//! Why parts become no design.

ghost use Rattle.std.specs.Prelude.{◌≡◌};
ghost use Rattle.sf_parts.specs.declared.fault.BuildFault.TheVariants.{NoMemory};

use sf_model::Name;
use std::alloc::AllocError;

/// A quantity that has a limit.
#[derive(Clone, Copy, Debug)]
pub enum Limit {
    Blocks,
    Pads,
    Nets,
    /// The pins of all nets together.
    Pins,
    /// A side of a hard block.
    Side,
    /// The area of a soft block.
    Area,
    /// A coordinate of a pad, by its absolute value.
    Coordinate,
}

/// Why parts become no design, with the name that shows it.
#[derive(Debug, Drop)]
pub enum BuildFault {
    DuplicateName(Name),
    UnknownName(Name),
    NoBlocks,
    NoShape(Name),
    /// The quantity, how much of it was found, and its limit.
    OverLimit(Limit, u64, u64),
    MissingPlace(Name),
    NoMemory,
}

impl<T: Drop + Into<AllocError>> From<T> for BuildFault {
    ghost from_gives = { λ _ e. e ≡ NoMemory };

    fn from(_e: T) -> BuildFault {
        BuildFault::NoMemory
    }
}
