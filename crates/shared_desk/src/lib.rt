//! A desk that the threads of several clerks share: one office, its keeper and the history of its calls behind one lock.
#![tactic(auto)]

mod deciding;
mod laws;
mod locked;
mod naming;
mod opened;
mod pass;
mod passes;
mod shared;

pub use clerk_desk::DeskFault;
pub use laws::{histories_are_reached, histories_go_on};
pub use locked::{AskOutcome, Outcome};
pub use naming::Naming;
pub use opened::{Desk, Finished, PassFault, Unopened};
pub use pass::{Note, Pass};
pub use passes::MOST_PASSES;
pub use shared::SharedDesk;
