//! Errors of the system as answers of a folder.
ghost use Rattle.std.specs.Prelude.{◌≡◌};
ghost use Rattle.std.specs.IoError.{error_kind};
ghost use Rattle.rc_outside.specs.Causes.{HasCause};
ghost use Rattle.rc_system.specs.Edge.{answered, cause_of, count_after};

use rc_outside::SourceError;
use std::io;

/// Why an error of the system leaves a folder without an answer.
fn cause_of(error: &io::Error) -> SourceError
    ensures { result ≡ cause_of (error_kind error.now) }
{
    match error.kind() {
        io::ErrorKind::OutOfMemory => SourceError::Memory,
        _ => SourceError::Failed,
    }
}

/// What the system gave, as a folder's answer; a failure is counted.
pub(crate) fn answered<T>(given: io::Result<T>, faults: &mut u64) -> Result<T, SourceError>
    ensures answer { result ≡ answered given }
    ensures count { faults.new ≡ count_after faults.old (answered given) }
    ensures cause { HasCause faults.old faults.new result }
{
    let error = match given {
        Ok(value) => return Ok(value),
        Err(error) => error,
    };
    let cause = cause_of(&error);
    if cause == SourceError::Failed {
        *faults = faults.saturating_add(1);
    }
    Err(cause)
}
