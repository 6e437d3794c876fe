//! What an accepted act is answered with.

use days_core::{Day, Month};

/// What an act made.
#[derive(Clone, Copy, Debug, PartialEq, Eq)]
pub enum Made {
    Nothing,
    /// A unit of that number.
    Unit(u32),
    /// An applicant of that number.
    Applicant(u32),
    /// The lines of a closing. The amount is in whole dollars.
    Closed {
        amount: i64,
        lines: u32,
        month: Month,
    },
    /// The record of that number. Amounts are whole dollars a month.
    Certified {
        assistance: u32,
        household: u32,
        target: u32,
        reimbursement: u32,
        tenant_rent: u32,
        ttp: u32,
    },
}

/// The reply to an act that was accepted.
#[derive(Clone, Copy, Debug, PartialEq, Eq)]
pub struct Done {
    pub act: u32,
    pub day: Day,
    pub made: Made,
}
