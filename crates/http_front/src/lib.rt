//! A session over HTTP at a desk that several clerks share: each message has the reply of the office of one clerk.
#![tactic(auto)]

mod asking;
mod draft;
mod laws;
mod pass_desk;
mod passing;
mod replying;
mod sharing;

pub use clerk_desk;
pub use http_session::SessionEnd;
pub use laws::sessions_share_a_history;
pub use shared_desk;
pub use sharing::session;
