//! Workers that take links from one listener and serve them, each one after another.
//!
//! The listener lies behind a lock of its own, which is free while a link is served.
#![tactic(auto)]

mod alone;
mod entry;
mod seat;
mod workers;

pub use seat::Seat;
pub use workers::{Ended, serve_all};
