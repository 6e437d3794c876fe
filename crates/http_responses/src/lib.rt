//! Responses: their exact bytes, and writing them.
#![tactic(auto)]

mod body;
mod head;
mod refusal;
mod status;
mod write;

pub use body::{Body, Reply};
pub use refusal::Refusal;
pub use status::Status;
pub use write::write_response;
