//! The part of a record that no figure is in.

use days_core::Day;
use record_history::{Dates, Kind};

/// What a record says beside its figures.
#[derive(Clone, Copy, Debug, PartialEq, Eq)]
pub struct Heading {
    pub household: u32,
    pub kind: Kind,
    /// The first day on which it is effective.
    pub from: Day,
    /// The number of the record that it corrects or withdraws, or 0.
    pub corrects: u32,
    /// The number of the unit, or 0 for a withdrawal.
    pub unit: u32,
    pub dates: Option<Dates>,
}
