//! What a read brought.

/// What one read added to the bytes that are held.
#[derive(Clone, Copy, Debug, PartialEq, Eq)]
pub enum More {
    /// At least one byte.
    Bytes,
    /// Nothing, since the source is at its end.
    End,
    /// Nothing, since the read failed.
    Failed,
    /// There is not the memory for them, and they are lost.
    NoMemory,
}
