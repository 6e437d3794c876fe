//! What a household was certified for on any day, as anyone could know it at any act.
#![tactic(auto)]

mod force;
mod history;
mod household;
mod laws;
mod limits;
mod lists;
mod live;
mod order;
mod ordered;
mod records;
mod runs;
mod stretch;

pub use history::History;
pub use laws::one_record_is_in_force;
pub use limits::{MOST_ACTS, MOST_LINES, limits_are_named};
pub use live::is_live;
pub use order::{comes_before, later};
pub use records::{Dates, Kind, Record};
pub use runs::Run;
pub use stretch::{Stretch, add_days};
