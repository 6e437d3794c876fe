//! The answers to the seven questions.

use admission_order::office_step::Refusal;
use days_core::{Day, Month};
use plain_data::{Listed, NoMemory, Text};
use record_history::{Dates, Record};
use voucher_core::Line;
use wait_list::Candidate;

/// A household, and its records that count.
#[derive(Debug, Drop, PartialEq, Eq)]
pub struct HouseholdSummary {
    pub household: u32,
    pub name: Text,
    /// The numbers of the records that count, in rising order.
    pub live: Listed<u32>,
    /// The number of its newest record, whether or not that counts.
    pub newest: u32,
}

/// What a closing requested (form HUD-52670 in outline). Amounts are whole dollars.
#[derive(Debug, Drop, PartialEq, Eq)]
pub struct Voucher {
    pub month: Month,
    /// The lines of the closing, in their order.
    pub lines: Listed<Line>,
    /// What is requested for the month itself.
    pub requested: i64,
    /// What earlier months are changed by.
    pub adjustments: i64,
    /// Both together.
    pub total: i64,
}

/// The day on which a household's next annual certification takes effect.
#[derive(Clone, Copy, Debug, PartialEq, Eq)]
pub struct DueDay {
    pub day: Day,
    pub household: u32,
}

/// The admissions of a fiscal year, and of how many the plan expects that they are of extremely low income (24 CFR
/// 5.653).
#[derive(Clone, Copy, Debug, PartialEq, Eq)]
pub struct Admissions {
    /// The first day of the fiscal year.
    pub first_day: Day,
    pub expected: u32,
    pub admitted: u32,
    /// Those of them that were of extremely low income.
    pub extremely_low: u32,
    /// Whether more of these are wanted.
    pub opened: bool,
}

/// The answer to a question, one form for each.
#[derive(Debug, Drop, PartialEq, Eq)]
pub enum Answer {
    Household(HouseholdSummary),
    Record(Record),
    Next(Option<Candidate>),
    /// None where the month isn't closed.
    Voucher(Option<Voucher>),
    /// Whole dollars.
    Paid(i64),
    /// In the order of their days, and of one day in that of their households.
    Due(Listed<DueDay>),
    Targets(Admissions),
}

/// Why a question has no answer.
#[derive(Clone, Copy, Debug, PartialEq, Eq)]
pub enum Asked {
    Refused(Refusal),
    NoMemory,
}

impl From<NoMemory> for Asked {
    ghost use Rattle.std.specs.Prelude.{◌≡◌};
    ghost use Rattle.office_answers.specs.declared.answer.Asked.TheVariants as asked;

    ghost from_gives = { λ _ why. why ≡ asked.NoMemory };

    fn from(_error: NoMemory) -> Asked {
        Asked::NoMemory
    }
}
