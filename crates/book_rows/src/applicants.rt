//! Acts on the waiting list.

use plain_data::{Listed, Text};

/// Puts an applicant on the waiting list.
#[derive(Debug, Drop, PartialEq, Eq)]
pub struct ApplyAct {
    /// From 1 to 40 printable bytes.
    pub name: Text,
    /// The members of the family, from 1 to 12.
    pub size: u32,
    /// Those who will live in the unit, live-in aides among them: from the size to 16.
    pub persons: u32,
    /// The codes of its preferences, from 1 to 16. At most 16.
    pub preferences: Listed<u32>,
    /// Whether it needs an accessible unit.
    pub accessible: bool,
    /// The income that it told, in whole dollars a year, at most 9,999,999.
    pub annual: u32,
}

/// Takes an applicant off the waiting list.
#[derive(Clone, Copy, Debug, PartialEq, Eq)]
pub struct RemoveAct {
    pub applicant: u32,
}
