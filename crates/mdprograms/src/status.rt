//! What a call that fails, or whose arguments are not accepted, shows on standard error, and its status.

ghost use Rattle.std.specs.Prelude.{◌≡◌};
ghost use Rattle.std.specs.Process.{exit_status};

use crate::failure::Failure;
use std::process::ExitCode;

/// Shows a failure on standard error. The status is 1.
pub fn failed(rt: &impl Eprint, failure: Failure) -> ExitCode
    ensures { exit_status result ≡ 1 }
{
    let _ = rt.eprintln(failure);
    ExitCode::FAILURE
}

/// Shows the usage line on standard error. The status is 2.
pub fn refused(rt: &impl Eprint, usage: &str) -> ExitCode
    ensures { exit_status result ≡ 2 }
{
    let _ = rt.eprintln(usage);
    ExitCode::from(2)
}
