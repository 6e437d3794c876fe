//! The reply to a call, accepted or not.

use admission_order::office_step::{Done, Refusal};

/// What a clerk is told of a call.
#[derive(Clone, Copy, Debug, PartialEq, Eq)]
pub enum Reply {
    /// The act was accepted, now or before.
    Accepted(Done),
    Refused(Refusal),
    /// The book's keeper failed, and nothing was appended.
    StoreFault,
    /// Memory ran out.
    NoMemory,
}
