//! The sample's records.

ghost use Rattle.std.specs.Prelude.{◌≡◌, ◌≤◌, None};

use crate::property::rents;
use days_core::{Day, LAST_OFFICE_DAY};
use record_history::{Dates, History, Kind, Record};
use std::alloc::Global;

/// A record of one of 70 with benefits of 9,600 and medical expenses of 1,000, alone in unit 1: of rents of 700 and 60 the
/// payment is 212, and 548 are paid for it.
pub fn record(household: u32, number: u32, act: u32, kind: Kind, from: Day) -> Record
    ensures household { result.household ≡ household }
    ensures number { result.number ≡ number }
    ensures act { result.act ≡ act }
    ensures from { result.from ≡ from }
    ensures dates { result.dates ≡ None }
{
    Record {
        household,
        number,
        act,
        kind,
        from,
        corrects: 0,
        unit: 1,
        persons: 1,
        size: 1,
        extremely: false,
        annual: 9_600,
        adjusted: 8_488,
        ttp: 212,
        rents: rents(700),
        assistance: 548,
        dates: None,
    }
}

/// Holds a record, and says whether an office could have made it: the next of its household, by a later act, which corrects
/// an earlier one or none, from a day through 2099, for amounts that a contract allows.
pub fn hold(history: &mut History, held: Record) -> bool {
    let household = held.household;
    if household == 0 || household - 1 > history.households() {
        return false;
    }
    if held.number <= held.corrects || history.newest(household) != held.number - 1 {
        return false;
    }
    if history.newest_act(household) >= held.act || held.from.number() > LAST_OFFICE_DAY {
        return false;
    }
    if held.rents.contract_rent > 99_999
        || held.rents.utility > 9_999
        || held.assistance > 109_998
    {
        return false;
    }
    if history.reserve(household).is_err() {
        return false;
    }
    // The check of the move below refuses a type that the function doesn't name, as Option and Dates.
    let _dates: Option<Dates> = held.dates;
    history.push(held);
    true
}

/// A history of these records, in their order.
pub fn history_of(alloc: Global, records: &[Record]) -> Option<History> {
    let mut history = History::new(alloc).ok()?;
    for held in records {
        if !hold(&mut history, *held) {
            return None;
        }
    }
    Some(history)
}
