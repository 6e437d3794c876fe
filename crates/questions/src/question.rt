//! The seven questions.

use days_core::{Day, Month};

/// What is asked of an office. A question changes nothing.
#[derive(Clone, Copy, Debug, PartialEq, Eq)]
pub enum Question {
    /// The household's name, and its records that count.
    Household { household: u32 },
    /// The household's record of that number.
    Record { household: u32, target: u32 },
    /// Who is next for the unit on the day.
    Next { unit: u32, day: Day },
    /// What the closing of the month requested.
    Voucher { month: Month },
    /// What all lines pay for the household and the month.
    Paid { household: u32, month: Month },
    /// Which annual certifications are due, seen from the day.
    Due { day: Day },
    /// How far the office is with the admissions of the fiscal year of the day.
    Targets { day: Day },
}
