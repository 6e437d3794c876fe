//! Links in memory of which one waits for another: a source that waits at a gate, and a sink that opens one.
#![tactic(auto)]

mod gate;
mod link;
mod sink;
mod source;

pub use gate::Gate;
pub use link::gated_link;
pub use sink::GatedSink;
pub use source::GatedSource;
