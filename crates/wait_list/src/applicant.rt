//! An applicant.

/// A family that waits for a unit.
#[derive(Clone, Copy, Debug, PartialEq, Eq)]
pub struct Applicant {
    /// From 1.
    pub number: u32,
    /// The number of the act by which it applied, from 1.
    pub act: u32,
    /// The persons whose number sets its income limits, from 1 to 12.
    pub size: u32,
    /// The persons who are to live in the unit.
    pub persons: u32,
    /// Its best rank, from 1 to 99, and 100 where no preference of its is ranked.
    pub rank: u32,
    /// Whether it needs accessible features.
    pub accessible: bool,
    /// Its income in whole dollars a year.
    pub annual: u32,
}
