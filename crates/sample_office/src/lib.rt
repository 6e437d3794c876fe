//! What tests begin with: one small office in January 2024, by its rows and by the texts of its acts.
//!
//! It is for tests alone. Each sample is a plain one, and a test says what is different in its own. Where a sample can't be
//! made, the call says so by `None`, `false` or an error, and the test fails.
#![tactic(auto)]

mod days;
mod household;
mod property;
mod records;
mod rows;
mod texts;

pub use days::{day, month, office_day};
pub use household::{facts, income, member};
pub use property::{limit_row, plan, rent_row, rent_table, rents, unit};
pub use records::{history_of, hold, record};
pub use rows::{act_row, line, text};
pub use texts::{
    ADMIT, APPLY, CLOSE_JANUARY, FACTS, INTERIM, LIMITS, OTHER_UNIT, PLAN, RENTS, START, UNIT,
    body, opening, post, written,
};
