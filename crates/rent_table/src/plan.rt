//! The plan.

use days_core::Month;
use plain_data::Listed;

/// How many persons a unit of so many bedrooms is for.
#[derive(Clone, Copy, Debug, PartialEq, Eq)]
pub struct Bound {
    /// From 1.
    pub least: u32,
    /// From `least` to 16.
    pub most: u32,
}

/// What an office sets down before it opens.
#[derive(Debug, Drop, PartialEq, Eq)]
pub struct Plan {
    /// The first month of the office, from 2000-01 to 2099-12.
    pub first: Month,
    /// Whether its contract took effect before 1 October 1981.
    pub early: bool,
    /// Which of the two methods of income targeting it follows, 1 or 2.
    pub method: u32,
    /// The month with which its fiscal year begins, from 1 for January.
    pub fiscal_month: u32,
    /// Within how many days a family reports a change, from 0 to 365.
    pub report_days: u32,
    /// The passbook savings rate in hundredths of a percent, from 0 to 10,000.
    pub passbook: u32,
    /// How many admissions a year it expects, from 0 to 9,999.
    pub expected: u32,
    /// For units of 0 to 5 bedrooms.
    pub bounds: [Bound; 6],
    /// The rank of each preference, from 1 to 99, by the preference's code from 1. At most 16.
    pub ranks: Listed<u32>,
}
