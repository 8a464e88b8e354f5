//! Why a jobs file is refused.

ghost use Rattle.std.specs.Prelude.{◌≡◌};
ghost use Rattle.sf_jobs.specs.declared.fault.JobsFault.TheVariants.{NoMemory};

use std::alloc::AllocError;

/// Why a jobs file is refused.
#[derive(Clone, Copy, Debug)]
pub enum JobsFault {
    /// The line of this number is no job.
    BadLine(u64),
    /// There are so many jobs, which is more than there may be.
    TooMany(u64),
    NoMemory,
}

impl<T: Drop + Into<AllocError>> From<T> for JobsFault {
    ghost from_gives = { λ _ e. e ≡ NoMemory };

    fn from(_e: T) -> JobsFault {
        JobsFault::NoMemory
    }
}
