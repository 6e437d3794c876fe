//! The refusals of an office, numbered in their one order.

use days_core::{Day, Month};
use wait_list::Candidate;

/// What a number should have named.
#[derive(Clone, Copy, Debug, PartialEq, Eq)]
pub enum Named {
    Household,
    Applicant,
    Unit,
    Record,
}

/// Why the office doesn't do what it is asked, in the one order in which the causes are tried.
#[derive(Clone, Copy, Debug, PartialEq, Eq)]
pub enum Refusal {
    /// That act has the clerk and the request, and another command.
    RequestReused {
        act: u32,
    },
    /// It isn't a plan, and none was accepted.
    NoPlan,
    /// It is a plan, and that act was one.
    PlanGiven {
        act: u32,
    },
    /// The book holds as many acts as it may.
    BookFull {
        acts: u32,
    },
    /// The first number among the fields that names nothing.
    NoSuch {
        what: Named,
        id: u32,
    },
    /// The household has a newer record than the clerk saw.
    Stale {
        newest: u32,
    },
    /// The clerk can't have seen so new a record.
    Unseen {
        newest: u32,
    },
    /// The facts break that rule on the first day.
    FactsRule {
        rule: u8,
    },
    /// The first day among the fields that lies outside its range, which is this.
    DayRange {
        first: Day,
        last: Day,
    },
    /// The unit's group has no rents on that day.
    NoRent {
        group: u32,
        day: Day,
    },
    /// No income limits stand on that day.
    NoLimits {
        day: Day,
    },
    /// The record to be corrected or withdrawn doesn't count.
    NotLive {
        target: u32,
    },
    /// It may not take effect on its first day, but on this one, if there is one.
    WrongDay {
        right: Option<Day>,
    },
    /// That record would be the first out of order.
    Disorder {
        target: u32,
    },
    /// That unit has the name.
    NameTaken {
        unit: u32,
    },
    /// The unit isn't for so many persons.
    SizeMisfit {
        unit: u32,
        size: u32,
    },
    /// That other household would have the unit on that day, the least such day.
    UnitTaken {
        household: u32,
        day: Day,
    },
    /// Another is next for the unit, or none is.
    NotNext {
        next: Option<Candidate>,
    },
    /// The annual income is above the limit.
    Ineligible {
        limit: u32,
        annual: u32,
    },
    /// The total tenant payment isn't below the gross rent.
    NoAssistance {
        ttp: u32,
        gross: u32,
    },
    /// It isn't the next month to close, which is this, if there is one.
    WrongMonth {
        next: Option<Month>,
    },
    /// On that day the household's record has other rents than its unit.
    RentDue {
        household: u32,
        target: u32,
        day: Day,
    },
    /// The household should have been certified anew on that day.
    Overdue {
        household: u32,
        anniversary: Day,
    },
    /// The book can't hold so many more lines.
    LinesFull {
        lines: u32,
        more: u32,
    },
}
