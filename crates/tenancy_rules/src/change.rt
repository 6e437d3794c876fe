//! A change of one household's records.

use record_history::Record;

/// What an act does to the live records of one household.
#[derive(Clone, Copy, Debug, PartialEq, Eq)]
pub struct Change {
    /// The number of the record that no longer counts, from 1, or 0 for none.
    pub drop: u32,
    /// The household's next record, which counts whatever its kind.
    pub add: Option<Record>,
}
