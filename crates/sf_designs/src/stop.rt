//! How a call ends before its last stage.

ghost use Rattle.std.specs.Prelude.{◌≡◌};
ghost use Rattle.sf_designs.specs.declared.stop.Stop.TheVariants.{NoMemory};

use sf_io::Status;
use std::alloc::AllocError;

/// Why a stage gives no value.
#[derive(Drop)]
pub enum Stop {
    /// An input is refused, with this status and the line that tells why.
    Refused(Status, Vec<u8>),
    /// A load failed.
    ReadFault,
    /// The memory didn't suffice.
    NoMemory,
}

impl<T: Drop + Into<AllocError>> From<T> for Stop {
    ghost from_gives = { λ _ e. e ≡ NoMemory };

    fn from(_e: T) -> Stop {
        Stop::NoMemory
    }
}
