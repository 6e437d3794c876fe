//! What acts leave known beside the rows: applications, requests for other units, closings, and who would move.

use book_rows::ApplyAct;
use days_core::Month;

/// An application and the act that made it.
#[derive(Debug, Drop, PartialEq, Eq)]
pub struct Application {
    pub act: u32,
    pub apply: ApplyAct,
}

/// What a household said of another unit, and the act by which it did.
#[derive(Clone, Copy, Debug, PartialEq, Eq)]
pub struct Request {
    pub act: u32,
    /// Whether it wants one.
    pub wanted: bool,
    /// Whether it needs an accessible one.
    pub accessible: bool,
}

/// A month that was closed, and the act that closed it.
#[derive(Clone, Copy, Debug, PartialEq, Eq)]
pub struct Closed {
    pub month: Month,
    pub act: u32,
}

/// A household that would move to a unit.
#[derive(Clone, Copy, Debug, PartialEq, Eq)]
pub struct Mover {
    pub household: u32,
    /// The act by which it said that it wants another unit.
    pub act: u32,
    /// Whether it needs an accessible one.
    pub accessible: bool,
}
