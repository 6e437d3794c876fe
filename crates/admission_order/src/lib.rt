//! Who is next for a unit, and how far a fiscal year is with its admissions, by what an office's register knows.
#![tactic(auto)]

mod admissions;
mod live;
mod movers;
mod next;
mod units;

pub use admissions::targets;
pub use next::next_for;
pub use office_register;
pub use office_register::{office_refusals, office_step};
pub use units::unit_in;
