//! One household's payment, from the bytes of an assess object to the bytes of its answer.
#![tactic(auto)]

mod answer;
mod household;
mod text;

pub use answer::{Assessed, assess};
pub use household::Household;
