//! Why a message is refused by its head.

/// Why a message is refused before its body is read.
#[derive(Clone, Copy, Debug, PartialEq, Eq)]
pub enum Fault {
    /// Whatever follows, the bytes are no head.
    BadHead,
    /// The head has more than 16,384 bytes or more than 64 headers.
    HeadTooLong,
    /// A `Transfer-Encoding` is there.
    Coding,
    /// `Content-Length` stands more than once, or its value is no number.
    BadLength,
    /// `Content-Length` is above 16,384.
    BodyTooLong,
}
