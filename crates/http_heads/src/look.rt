//! What bytes begin with.

use crate::Fault;
use httparse::spans::Span;

/// What a head says, and where it says it.
#[derive(Debug, Drop)]
pub struct FoundHead {
    pub method: Span,
    pub target: Span,
    /// Where the head ends and its body begins.
    pub end: usize,
    /// Whether it asks that the connection be closed after its response.
    pub asks_close: bool,
    /// How many bytes of body follow, or why the message is refused.
    pub body: Result<usize, Fault>,
}

/// What some bytes begin with.
#[derive(Debug, Drop)]
pub enum Look {
    /// A head of at most 16,384 bytes.
    Head(FoundHead),
    /// No such head, though more bytes may make one, or 16,384 are there.
    Open,
    /// What never becomes a head.
    Hopeless,
}
