//! The months and days of the made office.

ghost use Rattle.std.specs.Prelude.{◌≡◌, ◌≤◌};
ghost use Rattle.days_core.specs.Calendar.{day_number, first_of};
ghost use Rattle.generator.specs.Acts.{month_at, opening_day, raise_came, raise_told, left_on};

use days_core::{Day, Month, day_of_text, first_of};

/// The month of that place in the year, from 1 for January.
pub fn month_at(year: u32, place: u32) -> Month
    requires year_from { 1880 ≤ year }
    requires year_to { year ≤ 2199 }
    requires place_from { 1 ≤ place }
    requires place_to { place ≤ 12 }
    ensures { result ≡ month_at year place }
{
    Month::from_number(12 * (year - 1880) + (place - 1)).unwrap()
}

/// The day on which the office begins.
pub fn opening_day() -> Day
    ensures { result ≡ opening_day }
{
    first_of(month_at(2024, 1))
}

/// When every third household had its raise.
#[tactic(auto, unfolding(days_core::specs::DayText::day_from))]
pub fn raise_came() -> Day
    ensures { result ≡ raise_came }
{
    day_of_text("2024-03-10").unwrap()
}

/// When these households told of it.
#[tactic(auto, unfolding(days_core::specs::DayText::day_from))]
pub fn raise_told() -> Day
    ensures { result ≡ raise_told }
{
    day_of_text("2024-03-20").unwrap()
}

/// The last day of the household that moves out.
#[tactic(auto, unfolding(days_core::specs::DayText::day_from))]
pub fn left_on() -> Day
    ensures { result ≡ left_on }
{
    day_of_text("2025-10-15").unwrap()
}
