//! How a session ends.

/// How a session ended.
#[derive(Clone, Copy, Debug, PartialEq, Eq)]
pub enum SessionEnd {
    /// The input ended between two messages, or a message asked for the close and has its response.
    Ended,
    /// The input ended inside a message.
    Cut,
    /// What came is no message that is served; it was told so with that status.
    Refused { status: u16 },
    /// A read failed.
    ReadFault,
    /// A write failed.
    WriteFault,
    /// As many responses were written as a session has, and the last message didn't ask for the close.
    Spent,
    /// Memory ran out where no response could be made.
    NoMemory,
}
