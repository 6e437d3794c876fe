//! What an office does with a command, by what its register knows.
#![tactic(auto)]

/// Leaves with the refusal, if it stands.
macro_rules! stands {
    ($test:expr) => {
        if let Some(refusal) = $test {
            return Some(refusal);
        }
    };
}

mod admission;
mod closing;
mod headings;
mod judging;
mod lookups;
mod matter;
mod moves;
mod names;
mod places;
mod records;
mod refusing;
mod terms;

pub use admission_order;
pub use admission_order::{office_refusals, office_register, office_step};
pub use closing::lines_of;
pub use judging::judge;
