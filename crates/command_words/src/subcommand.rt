//! What words ask.

use days_core::{Day, Month};

/// What the program is asked to do.
#[derive(Clone, Copy, Debug, PartialEq, Eq)]
pub enum Subcommand {
    /// To assess one household.
    Assess,
    /// To answer the lines of a batch.
    Batch,
    /// To print the application for a month.
    Voucher(Month),
    /// To write all lines of the book.
    Export,
    /// To take applicants in, for the clerk of that number, from 1 to 9,999.
    Import(u32),
    /// To list the certifications that are due, seen from the day.
    Due(Day),
    /// To tell how far the fiscal year of the day is with its admissions.
    Targets(Day),
    /// To write the lines of an office with so many households, from 1 to 300.
    Make(u32),
    /// To run such an office in memory.
    Trial(u32),
}
