//! A record.

use days_core::{Day, Rents};

/// Why a record was made.
#[derive(Clone, Copy, Debug, PartialEq, Eq)]
pub enum Kind {
    /// A move-in.
    MI,
    /// An initial certification.
    IC,
    /// An annual recertification.
    AR,
    /// An interim recertification.
    IR,
    /// A gross rent change.
    GR,
    /// A unit transfer.
    UT,
    /// A move-out.
    MO,
    /// A termination of assistance.
    TM,
    /// A withdrawal of another record.
    WD,
}

/// The days of a change that a household told of.
#[derive(Clone, Copy, Debug, PartialEq, Eq)]
pub struct Dates {
    /// When it came about.
    pub event: Day,
    /// When the household told of it.
    pub notice: Day,
    /// When the work on it was done.
    pub done: Day,
}

/// What a household is certified for from a day on. Amounts are whole dollars a month, incomes a year.
#[derive(Clone, Copy, Debug, PartialEq, Eq)]
pub struct Record {
    pub household: u32,
    /// A household numbers its records from 1.
    pub number: u32,
    /// The act that made the record.
    pub act: u32,
    pub kind: Kind,
    /// The first day on which it is effective.
    pub from: Day,
    /// The number of the record that it corrects or withdraws, or 0.
    pub corrects: u32,
    pub unit: u32,
    pub persons: u32,
    /// The size of the household by which its income limit goes.
    pub size: u32,
    /// Whether its income is extremely low.
    pub extremely: bool,
    pub annual: u32,
    pub adjusted: u32,
    /// The total tenant payment.
    pub ttp: u32,
    pub rents: Rents,
    pub assistance: u32,
    pub dates: Option<Dates>,
}
