//! Which records of a household may follow each other, and that no unit has two households.
#![tactic(auto)]

mod change;
mod changed;
mod laws;
mod occupancy;
mod order;
mod tenancies;
mod uses;

pub use change::Change;
pub use changed::is_before;
pub use laws::{
    change_is_what_lives, double_use_is_first, no_unit_has_two, occupancy_is_plain, order_is_plain,
};
pub use occupancy::{DoubleUse, double_use};
pub use order::{order_fault, sooner};
pub use rent_table::{admission_limit, suits};
pub use tenancies::Tenancies;
