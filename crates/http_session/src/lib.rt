//! One session of an office over HTTP: the messages of a source are served one after another by a desk.
#![tactic(auto)]

mod desk;
mod end;
mod serve;
mod session;

pub use desk::Desk;
pub use end::SessionEnd;
pub use session::session_over;
