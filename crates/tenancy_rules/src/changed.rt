//! The live records of a household once an act has changed them, without a list of them.

ghost use Rattle.std.specs.Prelude.{◌≡◌, ◌≢◌, ◌≤◌, ◌==◌, true, false, filter, length, option_copied, AllPairs};
ghost use Rattle.std.specs.List.Sorted.{IsPartitionPoint};
ghost use Rattle.record_history.specs.Records.{latest, live_records};
ghost use Rattle.record_history.specs.Held.{records_of, AreNumbered};
ghost use Rattle.record_history.specs.Ordered.{StandInOrder, AreInOrder};
ghost use Rattle.tenancy_rules.specs.Changed.{changed_records, is_before, without};

use crate::Change;
use record_history::{History, Record, later};

/// The last of the changed records that come before the place of that day and number in the order.
pub fn latest_before<'a>(
    history: &'a History,
    household: u32,
    change: &'a Change,
    day: u32,
    number: u32,
) -> Option<&'a Record>
    ensures { option_copied result ≡ latest (filter (is_before day number) (changed_records (records_of history.now.households household) change.now)) }
{
    let latest = last_kept_before(history, household, change.drop, day, number);
    match &change.add {
        Some(added) if is_before(day, number, added) => later(latest, added),
        _ => latest,
    }
}

fn last_kept_before(
    history: &History,
    household: u32,
    dropped: u32,
    day: u32,
    number: u32,
) -> Option<&Record>
    ensures { option_copied result ≡ latest (filter (is_before day number) (without dropped (live_records (records_of history.now.households household)))) }
{
    let live = live_in_order(history, household);
    last_but(all_before(live, day, number), dropped)
}

/// The household's records that count, in their order.
pub fn live_in_order(history: &History, household: u32) -> &[Record]
    ensures order { AreInOrder (live_records (records_of history.now.households household)) result.now }
    ensures numbered { AreNumbered (records_of history.now.households household) }
{
    // Its clauses say that the records are numbered.
    let _records = history.records(household);
    history.live_records(household)
}

/// Whether the record comes before the place of that day and number in the order.
pub fn is_before(day: u32, number: u32, held: &Record) -> bool
    ensures { result ≡ is_before day number held.now }
{
    let from = held.from.number();
    from < day || from == day && held.number < number
}

/// Those of the records in order that come before the place.
fn all_before(live: &[Record], day: u32, number: u32) -> &[Record]
    requires { StandInOrder live.now }
    ensures { result.now ≡ filter (is_before day number) live.now }
{
    &live[..how_many_before(live, day, number)]
}

fn how_many_before(live: &[Record], day: u32, number: u32) -> usize
    requires { StandInOrder live.now }
    ensures bound { result ≤ length live.now }
    ensures point { IsPartitionPoint (λ r. is_before day number r ≡ true) (λ r. is_before day number r ≡ false) live.now result }
{
    live.partition_point(|held| is_before(day, number, held))
}

/// The last of the records in order, without the one of that number.
fn last_but(records: &[Record], dropped: u32) -> Option<&Record>
    requires in_order { StandInOrder records.now }
    requires own { AllPairs (λ r other. r.number ≢ other.number) records.now }
    ensures { option_copied result ≡ latest (without dropped records.now) }
{
    match records.split_last() {
        Some((held, earlier)) if held.number == dropped => last_of(earlier),
        Some((held, _)) => Some(held),
        None => None,
    }
}

fn last_of(records: &[Record]) -> Option<&Record>
    requires { StandInOrder records.now }
    ensures { option_copied result ≡ latest records.now }
{
    records.last()
}
