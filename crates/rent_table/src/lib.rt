//! An office's plan, its units, and the rents and income limits that stand on a day.
#![tactic(auto)]

mod admission;
mod laws;
mod lookup;
mod plan;
mod rows;
mod standing;
mod table;

pub use admission::{admission_limit, has_extremely_low_income, suits};
pub use laws::{one_row_sets_limits, one_row_sets_rents, units_are_found};
pub use plan::{Bound, Plan};
pub use rows::{LimitRow, RentRow, Unit};
pub use table::RentTable;
