//! The lists that an office prints: which certifications are due, and how far a fiscal year is with its admissions.
#![tactic(auto)]

mod reports;

pub use reports::{due_text, targets_text};
