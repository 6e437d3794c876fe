//! Applicants of CSV: each record below the header is an applicant that a clerk puts on the waiting list, or is none.
#![tactic(auto)]

mod fields;
mod import;
mod preferences;
mod row;

pub use import::{ImportFault, applicants_of_csv};
pub use row::ImportRow;
