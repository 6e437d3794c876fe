//! What a record certifies of a household: its persons, incomes, payment and assistance.
#![tactic(auto)]

mod certified;
mod figures;

pub use certified::{family_eligible, family_size, figures_carried, figures_of_facts, no_figures};
pub use figures::Figures;
