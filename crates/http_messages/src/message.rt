//! A message.

use http_heads::Fault;
use plain_data::Text;

/// A request: the parts of its head that are answered, and its body.
#[derive(Debug, Drop)]
pub struct Message {
    pub method: Text,
    pub target: Text,
    pub body: Text,
    /// Whether it asks that the connection be closed after its response.
    pub asks_close: bool,
}

/// What came next.
#[derive(Debug, Drop)]
pub enum Incoming {
    /// A whole message.
    Message(Message),
    /// Nothing: the source is at its end, between messages.
    End,
    /// The source is at its end inside a message.
    Cut,
    /// What no message begins with.
    Refused(Fault),
    /// A read failed inside a message or between two.
    Failed,
    /// There is no memory for a copy of the message, which stays in the inbox.
    NoMemory,
}
