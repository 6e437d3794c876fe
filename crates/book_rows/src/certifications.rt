//! Acts that certify.

use days_core::Day;
use facts_core::Facts;
use plain_data::Text;
use record_history::Dates;

/// Certifies a household that lives in a unit already.
#[derive(Drop)]
pub struct StartAct {
    /// From 1 to 40 printable bytes.
    pub name: Text,
    pub unit: u32,
    pub from: Day,
    pub facts: Facts,
}

/// Moves an applicant into a unit.
#[derive(Drop)]
pub struct AdmitAct {
    pub applicant: u32,
    pub unit: u32,
    pub from: Day,
    pub facts: Facts,
}

/// Certifies a household anew after a year.
#[derive(Drop)]
pub struct AnnualAct {
    pub from: Day,
    pub facts: Facts,
}

/// Certifies a household after a change that it told of.
#[derive(Drop)]
pub struct InterimAct {
    pub dates: Dates,
    pub from: Day,
    pub facts: Facts,
}

/// Certifies a household whose assistance had been ended.
#[derive(Drop)]
pub struct ResumeAct {
    /// When the work on it was done.
    pub done: Day,
    pub from: Day,
    pub facts: Facts,
}

/// Takes over the rents that its unit has from a day on.
#[derive(Clone, Copy, Debug, PartialEq, Eq)]
pub struct GrossAct {
    pub from: Day,
}

/// Puts a record right.
#[derive(Drop)]
pub struct CorrectAct {
    /// The number of the record that is corrected.
    pub target: u32,
    pub from: Day,
    pub facts: Facts,
}
