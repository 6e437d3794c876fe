//! Units, and rows of rents and limits.

use days_core::{Day, Rents};
use plain_data::Text;

/// A unit of the property.
#[derive(Debug, Drop, PartialEq, Eq)]
pub struct Unit {
    /// From 1.
    pub number: u32,
    /// From 1 to 10 bytes.
    pub name: Text,
    /// The group of units with which it shares its rents, from 1 to 99.
    pub group: u32,
    /// From 0 to 5.
    pub bedrooms: u32,
    pub accessible: bool,
}

/// The rents of a group of units from a day on, as an act set them.
#[derive(Clone, Copy, Debug, PartialEq, Eq)]
pub struct RentRow {
    /// From 1 to 99.
    pub group: u32,
    pub from: Day,
    /// The number of the act, from 1.
    pub act: u32,
    /// A contract rent of at most 99,999 and a utility allowance of at most 9,999.
    pub rents: Rents,
}

/// The income limits from a day on, as an act set them, in whole dollars a year.
///
/// Each has a limit for families of 1 to 12 persons, of at most 9,999,999.
#[derive(Clone, Copy, Debug, PartialEq, Eq)]
pub struct LimitRow {
    pub from: Day,
    /// The number of the act, from 1.
    pub act: u32,
    pub low: [u32; 12],
    pub very_low: [u32; 12],
    pub extremely_low: [u32; 12],
}
