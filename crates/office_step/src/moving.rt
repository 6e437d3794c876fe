//! A move into a unit.

use days_core::Day;
use wait_list::Candidate;

/// Who moves into a unit by an act.
#[derive(Clone, Copy, Debug, PartialEq, Eq)]
pub struct MoveIn {
    pub candidate: Candidate,
    /// The number of the unit.
    pub unit: u32,
    pub from: Day,
}
