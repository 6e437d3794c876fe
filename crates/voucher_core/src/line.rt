//! A line.

use days_core::{Day, Month};

/// One line of a closing: what is claimed, or taken back, for some days of a month.
#[derive(Clone, Copy, Debug, PartialEq, Eq)]
pub struct Line {
    /// The act of the closing.
    pub act: u32,
    /// The line's place among those of its closing, from 1.
    pub place: u32,
    /// The month that the closing closes.
    pub month: Month,
    pub household: u32,
    /// The month that is paid for.
    pub for_month: Month,
    pub first: Day,
    pub last: Day,
    /// The record by which an earlier closing paid for these days, or 0.
    pub old: u32,
    /// The record by which they are to be paid now, or 0.
    pub new: u32,
    /// What the new record gives for these days less what the old one gave, in whole dollars.
    pub amount: i32,
}
