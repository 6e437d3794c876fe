//! What an office knows by the acts and records of its book, kept so that it can be looked up.
#![tactic(auto)]

mod register;

pub use office_refusals;
pub use office_refusals::office_step;
pub use register::Register;
