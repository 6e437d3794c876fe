//! On which days what is in force for a household can change.
//!
//! Only records that count now, and those that newer ones correct, are looked at: never all that a household has.

ghost use Rattle.std.specs.Prelude.{◌≡◌, ◌<◌, ◌≤◌, true, false, nat_le, All, length};
ghost use Rattle.std.specs.List.Sorted.{IsPartitionPoint};
ghost use Rattle.record_history.specs.Records.{as_of, live_records};
ghost use Rattle.record_history.specs.Held.{records_of};
ghost use Rattle.record_history.specs.Ordered.{StandInOrder};
ghost use Rattle.voucher_core.specs.Walk.{known_before, made_after, BeginsNotWithin, CorrectsNotWithin};

use crate::touched::made_after;
use record_history::{History, Record};

/// The first day after this one on which a record begins that counts by the act, or counted when the day was last paid for;
/// or the end where none does before it.
pub fn next_start(
    history: &History,
    household: u32,
    day: u32,
    end: u32,
    paid_at: Option<u32>,
    act: u32,
) -> u32
    requires { day < end }
    ensures after { day < result }
    ensures within { result ≤ end }
    ensures before { All (BeginsNotWithin day result) (live_records (known_before paid_at (records_of history.now.households household))) }
    ensures now { All (BeginsNotWithin day result) (live_records (as_of act (records_of history.now.households household))) }
{
    let next = next_counting(history, household, day, end);
    let next = next_counted(history, household, day, next, act);
    match paid_at {
        Some(last_close) => next_counted(history, household, day, next, last_close),
        None => next,
    }
}

/// The first day after this one on which a record begins that counts by all that is known.
fn next_counting(history: &History, household: u32, day: u32, end: u32) -> u32
    requires { day < end }
    ensures after { day < result }
    ensures within { result ≤ end }
    ensures apart { All (BeginsNotWithin day result) (live_records (records_of history.now.households household)) }
{
    next_in_order(history.live_records(household), day, end)
}

/// The first day after this one on which one of the records in order begins.
fn next_in_order(live: &[Record], day: u32, end: u32) -> u32
    requires order { day < end }
    requires in_order { StandInOrder live.now }
    ensures after { day < result }
    ensures within { result ≤ end }
    ensures apart { All (BeginsNotWithin day result) live.now }
{
    match live.get(how_many_begun(live, day)) {
        Some(held) => end.min(held.from.number()),
        None => end,
    }
}

fn how_many_begun(live: &[Record], day: u32) -> usize
    requires { StandInOrder live.now }
    ensures bound { result ≤ length live.now }
    ensures point { IsPartitionPoint (λ r. nat_le r.from day ≡ true) (λ r. nat_le r.from day ≡ false) live.now result }
{
    live.partition_point(|held| held.from.number() <= day)
}

/// The same where those that counted as of an act are looked at too: each that doesn't count now was corrected by a later act.
fn next_counted(history: &History, household: u32, day: u32, end: u32, act: u32) -> u32
    requires { day < end }
    ensures after { day < result }
    ensures within { result ≤ end }
    ensures apart { All (BeginsNotWithin day end) (live_records (records_of history.now.households household)) → All (BeginsNotWithin day result) (live_records (as_of act (records_of history.now.households household))) }
{
    if history.newest_act(household) <= act {
        return end;
    }
    let newer = made_after(history.records(household), act);
    next_corrected(history, household, newer, day, end)
}

/// The first day after this one on which a record begins that one of these corrects or withdraws.
fn next_corrected(history: &History, household: u32, newer: &[Record], day: u32, end: u32) -> u32
    requires { day < end }
    ensures after { day < result }
    ensures within { result ≤ end }
    ensures apart { All (CorrectsNotWithin (records_of history.now.households household) day result) newer.now }
{
    let mut next = end;
    for held in newer {
        next = next_by_one(history, household, held, day, next);
    }
    next
}

fn next_by_one(history: &History, household: u32, held: &Record, day: u32, end: u32) -> u32
    requires { day < end }
    ensures after { day < result }
    ensures within { result ≤ end }
    ensures apart { CorrectsNotWithin (records_of history.now.households household) day result held.now }
{
    match history.record_at(household, held.corrects) {
        Some(corrected) if day < corrected.from.number() => end.min(corrected.from.number()),
        _ => end,
    }
}
