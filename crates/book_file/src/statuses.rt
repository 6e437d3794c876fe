//! The exit status where a file isn't opened.

ghost use Rattle.std.specs.Prelude.{◌≡◌};
ghost use Rattle.book_file.specs.Opening.{error_of, status_of};

use office_io::ExitStatus;
use sqlite::{Error, ErrorCode};
use sqlite_std_file::OpenError;
use std::io::ErrorKind;

/// The status where a book isn't opened for that reason.
pub fn status_of(error: Error) -> ExitStatus
    ensures { result ≡ status_of error }
{
    match error {
        Error::SqliteFailure(ErrorCode::OutOfMemory) => ExitStatus::NoMemory,
        _ => ExitStatus::StoreFault,
    }
}

/// What SQLite would say in place of that.
pub(crate) fn error_of(error: OpenError) -> Error
    ensures { result ≡ error_of error }
{
    match error {
        OpenError::OutOfMemory => Error::SqliteFailure(ErrorCode::OutOfMemory),
        OpenError::Io(error) if error.kind() == ErrorKind::OutOfMemory => {
            Error::SqliteFailure(ErrorCode::OutOfMemory)
        }
        _ => Error::SqliteFailure(ErrorCode::CannotOpen),
    }
}
