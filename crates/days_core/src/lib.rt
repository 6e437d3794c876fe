//! Days and months of the civil calendar from 1880 to 2199, and the rents of a day.
#![tactic(auto)]

mod age;
mod civil;
mod day;
mod month;
mod months;
mod moves;
mod office_days;
mod rents;
mod rounding;
mod text;
mod writing;

pub use age::age_on;
pub use day::Day;
pub use month::Month;
pub use months::{days_in, first_of, last_of, month_of, plus_months};
pub use moves::{plus_days, years_before};
pub use office_days::{
    FIRST_OFFICE_DAY, FIRST_OFFICE_MONTH, LAST_OFFICE_DAY, LAST_OFFICE_MONTH,
    office_days_end_with_2099,
};
pub use rents::Rents;
pub use rounding::round_half_up;
pub use text::{BadDay, day_of_text, month_of_text, texts_read_back};
pub use writing::{text_of_day, text_of_month};
