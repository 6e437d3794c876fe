//! Acts on the property.

use days_core::{Day, Rents};
use plain_data::Text;

/// Adds a unit to the property.
#[derive(Debug, Drop, PartialEq, Eq)]
pub struct UnitAct {
    /// From 1 to 10 printable bytes.
    pub name: Text,
    /// The group of units with which it shares its rents, from 1 to 99.
    pub group: u32,
    /// From 0 to 5.
    pub bedrooms: u32,
    pub accessible: bool,
}

/// Sets the rents of a group of units from a day on.
#[derive(Clone, Copy, Debug, PartialEq, Eq)]
pub struct RentsAct {
    /// From 1 to 99.
    pub group: u32,
    pub from: Day,
    /// A contract rent of at most 99,999 and a utility allowance of at most 9,999.
    pub rents: Rents,
}

/// Sets the income limits from a day on, in whole dollars a year.
///
/// Each has a limit for families of 1 to 12 persons, of at most 9,999,999.
#[derive(Clone, Copy, Debug, PartialEq, Eq)]
pub struct LimitsAct {
    pub from: Day,
    pub low: [u32; 12],
    pub very_low: [u32; 12],
    pub extremely_low: [u32; 12],
}
