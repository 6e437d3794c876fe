//! The records of a household that count.

ghost use Rattle.std.specs.Prelude.{◌≤◌, length};
ghost use Rattle.record_history.specs.Held.{records_of, AreNumbered};
ghost use Rattle.record_history.specs.Ordered.{AreInOrder};
ghost use Rattle.record_history.specs.Records.{live_records};

use record_history::{Dates, History, Record};

/// The household's records that count, in their order.
pub fn live_in_order(history: &History, household: u32) -> &[Record]
    ensures order { AreInOrder (live_records (records_of history.now.households household)) result.now }
    ensures few { length result.now ≤ length (records_of history.now.households household) }
    ensures numbered { AreNumbered (records_of history.now.households household) }
{
    // Its clauses say that the records are numbered.
    let _records = history.records(household);
    history.live_records(household)
}
