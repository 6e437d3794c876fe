//! A call: which clerk asks for what, by which request; and how much a book may hold.

use book_rows::Command;

/// What a clerk asks of the office.
#[derive(Drop)]
pub struct Call {
    /// From 1 to 9,999.
    pub clerk: u32,
    /// The clerk's own number of the request, from 1.
    pub request: u32,
    pub command: Command,
}

impl Call {
    /// Frees it. It stands apart, so that no other proof has a case for each kind of command that goes out of use.
    pub fn let_go(self) {}
}

/// How much a book may hold.
#[derive(Clone, Copy, Debug, PartialEq, Eq)]
pub struct Capacity {
    /// At most 100,000.
    pub acts: u32,
    /// At most 4,000,000.
    pub lines: u32,
}
