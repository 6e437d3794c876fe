//! What keeps a book: it is loaded whole, and each act's rows are committed to it, or nothing is.
#![tactic(auto)]

mod copies;
mod damaged;
mod keeper;
mod memory;
mod planned;

pub use damaged::DamagedKeeper;
pub use keeper::{Committed, Keeper, Loaded};
pub use memory::MemoryKeeper;
pub use planned::PlannedKeeper;
