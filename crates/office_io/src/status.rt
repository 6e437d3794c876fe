//! How a run of the program ends.

ghost use Rattle.std.specs.Prelude.{◌≡◌};
ghost use Rattle.office_io.specs.Status.{number_of};

/// How a run ended, which its exit status tells.
#[derive(Clone, Copy, Debug, PartialEq, Eq)]
pub enum ExitStatus {
    /// All was read and answered.
    Done,
    /// The words are none of the program's.
    BadWords,
    /// The source failed; or of a server, its port wasn't bound, or an accept failed.
    ReadFault,
    /// The sink failed.
    WriteFault,
    /// The keeper failed, or the file of its book.
    StoreFault,
    /// No office makes the book.
    BadBook,
    /// Memory ran out.
    NoMemory,
    /// The object or the header is refused.
    Refused,
    /// The input is too long.
    TooLong,
}

impl ExitStatus {
    /// The number that the process ends with.
    pub fn number(self) -> u8
        ensures { result ≡ number_of self }
    {
        match self {
            ExitStatus::Done => 0,
            ExitStatus::BadWords => 2,
            ExitStatus::ReadFault => 3,
            ExitStatus::WriteFault => 4,
            ExitStatus::StoreFault => 5,
            ExitStatus::BadBook => 6,
            ExitStatus::NoMemory => 7,
            ExitStatus::Refused => 8,
            ExitStatus::TooLong => 9,
        }
    }
}
