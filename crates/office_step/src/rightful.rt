//! The rightful first day of a record.

use days_core::Day;

/// On which days a record may begin.
#[derive(Clone, Copy, Debug, PartialEq, Eq)]
pub enum Rightful {
    Any,
    /// On this one alone, if there is one.
    Only(Option<Day>),
}
