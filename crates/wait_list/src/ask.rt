//! What is asked of a waiting list, and who may be the answer.

use rent_table::{LimitRow, Plan, Unit};

/// Who may be given a unit, by the number of the applicant or of the household that would move there.
#[derive(Clone, Copy, Debug, PartialEq, Eq)]
pub enum Candidate {
    Applicant(u32),
    Household(u32),
}

/// What is asked about a unit on a day.
#[derive(Clone, Copy, Debug)]
pub struct Ask<'a> {
    /// Of at most 5 bedrooms.
    pub unit: &'a Unit,
    pub plan: &'a Plan,
    /// The income limits of the day, if any stand.
    pub limits: Option<&'a LimitRow>,
    /// Whether an extremely low-income applicant is wanted, as `wants_extremely_low` says.
    pub wanted: bool,
    /// The household of the first mover who needs accessible features that the unit has, if any.
    pub needing: Option<u32>,
    /// The household of the first other mover, if any.
    pub other: Option<u32>,
}
