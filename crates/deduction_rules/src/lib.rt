//! What is deducted from the income of a family, and its adjusted income, by 24 CFR 5.611.
#![tactic(auto)]

mod adjusted;
mod earners;
mod expenses;
mod figures;
mod household;

pub use adjusted::adjusted_income;
pub use figures::Allowances;
