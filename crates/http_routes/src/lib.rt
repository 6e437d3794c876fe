//! The routes: what a method and a target ask for.
#![tactic(auto)]

mod parts;
mod place;
mod routed;
mod routes;

pub use routed::{Routed, ValuePart};
pub use routes::{Routes, one_route_fits};
