//! The server: links are taken, served by the desk of an office that several workers share, and given back.
#![tactic(auto)]

mod desk;
mod laws;
mod seat;
mod seats;
mod server;

pub use laws::links_share_a_history;
pub use server::{Served, run_serve};
