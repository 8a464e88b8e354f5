//! What the process ends with.

ghost use Rattle.std.specs.Prelude.{◌≡◌};
ghost use Rattle.std.specs.Process.{exit_status};
ghost use Rattle.sf_host.specs.Number.{number};

use sf_io::Status;
use std::process::ExitCode;

/// What the process ends with.
pub fn code_of(status: Status) -> ExitCode
    ensures { exit_status result ≡ number status }
{
    ExitCode::from(status as u8)
}
