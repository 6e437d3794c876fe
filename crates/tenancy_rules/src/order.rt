//! Which records may follow each other.

ghost use Rattle.std.specs.Prelude.{◌≡◌, filter, option_copied};
ghost use Rattle.std.specs.Option.{option_map};
ghost use Rattle.record_history.specs.{Held.records_of, Records.live_records};
ghost use Rattle.tenancy_rules.specs.Changed.{changed_records, without, AddsNext, NumbersRise};
ghost use Rattle.tenancy_rules.specs.Order.{may_begin, may_follow, has_its_unit, is_in_order, is_out_of_order, sooner, earliest, record_before, first_out_of_order};

use crate::Change;
use crate::changed::{latest_before, live_in_order};
use record_history::{History, Kind, Record, comes_before};

/// The number of the first record that would be out of order after the change, and None where none would be.
///
/// The live records of a household stand in the order of their first days, and those of one day in that of their numbers.
/// Which may follow which are own rules, for the certifications of Handbook 4350.3 REV-1, chapters 5 and 7.
pub fn order_fault(history: &History, household: u32, change: &Change) -> Option<u32>
    requires next { AddsNext (records_of history.now.households household) household change.now }
    ensures value { result ≡ option_map (λ r. r.number) (first_out_of_order (changed_records (records_of history.now.households household) change.now)) }
    ensures own_number { NumbersRise (changed_records (records_of history.now.households household) change.now) }
{
    // Its clauses say that the records are numbered.
    let _records = history.records(household);
    first_out_of_order(history, household, change).map(|held| held.number)
}

/// The first of the changed records that may not stand where it stands.
fn first_out_of_order<'a>(
    history: &'a History,
    household: u32,
    change: &'a Change,
) -> Option<&'a Record>
    ensures { option_copied result ≡ first_out_of_order (changed_records (records_of history.now.households household) change.now) }
{
    let first = first_kept_out_of_order(history, household, change);
    match &change.add {
        Some(added) if is_out_of_order(history, household, change, added) => sooner(first, added),
        _ => first,
    }
}

/// The first of those that the change keeps.
fn first_kept_out_of_order<'a>(
    history: &'a History,
    household: u32,
    change: &Change,
) -> Option<&'a Record>
    ensures { option_copied result ≡ earliest (filter (is_out_of_order (changed_records (records_of history.now.households household) change.now)) (without change.now.drop (live_records (records_of history.now.households household)))) }
{
    let mut first = None;
    for held in live_in_order(history, household) {
        if held.number != change.drop && is_out_of_order(history, household, change, held) {
            first = sooner(first, held);
        }
    }
    first
}

#[tactic(auto, unfolding(crate::specs::Order::is_out_of_order))]
fn is_out_of_order(history: &History, household: u32, change: &Change, held: &Record) -> bool
    ensures { result ≡ is_out_of_order (changed_records (records_of history.now.households household) change.now) held.now }
{
    !is_in_order(record_before(history, household, change, held), held)
}

fn record_before<'a>(
    history: &'a History,
    household: u32,
    change: &'a Change,
    next: &Record,
) -> Option<&'a Record>
    ensures { option_copied result ≡ record_before (changed_records (records_of history.now.households household) change.now) next.now }
{
    latest_before(history, household, change, next.from.number(), next.number)
}

/// The one of the two that comes first.
pub fn sooner<'a>(first: Option<&'a Record>, held: &'a Record) -> Option<&'a Record>
    ensures { option_copied result ≡ sooner (option_copied first.entry) held.now }
{
    match first {
        Some(best) if !comes_before(held, best) => Some(best),
        _ => Some(held),
    }
}

fn is_in_order(earlier: Option<&Record>, next: &Record) -> bool
    ensures { result ≡ is_in_order (option_copied earlier.entry) next.now }
{
    match earlier {
        None => may_begin(next.kind),
        Some(earlier) => may_follow(earlier.kind, next.kind) && has_its_unit(earlier, next),
    }
}

fn may_begin(kind: Kind) -> bool
    ensures { result ≡ may_begin kind }
{
    matches!(kind, Kind::MI | Kind::IC)
}

fn may_follow(earlier: Kind, next: Kind) -> bool
    ensures { result ≡ may_follow earlier next }
{
    match earlier {
        Kind::MO => false,
        Kind::TM => matches!(next, Kind::IC | Kind::MO),
        _ => !may_begin(next),
    }
}

fn has_its_unit(earlier: &Record, next: &Record) -> bool
    ensures { result ≡ has_its_unit earlier.now next.now }
{
    if next.kind == Kind::UT {
        next.unit != earlier.unit
    } else {
        next.unit == earlier.unit
    }
}
