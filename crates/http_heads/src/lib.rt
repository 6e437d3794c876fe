//! The head of a request: what the bytes that came so far say of it.
#![tactic(auto)]

mod fault;
mod headers;
mod look;
mod parsed;
mod reader;
mod target;

pub use fault::Fault;
pub use look::{FoundHead, Look};
pub use reader::HeadReader;
