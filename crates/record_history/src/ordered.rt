//! The records of a household that count, in the order of their first days and numbers.

ghost use Rattle.std.specs.Prelude.{◌≡◌, ◌≢◌, ◌<◌, ◌≤◌, ◌+◌, ◌==◌, ◌∷◌, true, false, not, nat_le, filter, length, position, All, AllPairs, option_copied, slice_get, vec_len, vec_capacity};
ghost use Rattle.std.specs.List.Sorted.{IsPartitionPoint, IsPermutation};
ghost use Rattle.record_history.specs.Records.{comes_before, latest};
ghost use Rattle.record_history.specs.Ordered.{StandInOrder, AreInOrder, with_live};

use crate::live::is_withdrawal;
use crate::{Dates, Record, comes_before};
use days_core::Day;

/// The last of those that begin by the day.
pub fn last_begun(live: &[Record], day: Day) -> Option<&Record>
    requires { StandInOrder live.now }
    ensures { option_copied result ≡ latest (filter (λ r. nat_le r.from day) live.now) }
{
    let begun = how_many_begun(live, day);
    if begun == 0 {
        return None;
    }
    item_at(live, begun - 1)
}

pub fn item_at<T>(items: &[T], place: usize) -> Option<&T>
    ensures { option_copied result ≡ slice_get items.now place }
{
    items.get(place)
}

fn how_many_begun(live: &[Record], day: Day) -> usize
    requires { StandInOrder live.now }
    ensures bound { result ≤ length live.now }
    ensures point { IsPartitionPoint (λ r. nat_le r.from day ≡ true) (λ r. nat_le r.from day ≡ false) live.now result }
{
    live.partition_point(|held| held.from <= day)
}

fn how_many_before(live: &[Record], next: &Record) -> usize
    requires { StandInOrder live.now }
    ensures bound { result ≤ length live.now }
    ensures point { IsPartitionPoint (λ r. comes_before r next.now ≡ true) (λ r. comes_before r next.now ≡ false) live.now result }
{
    live.partition_point(|held| comes_before(held, next))
}

/// Makes them those that count once the record is there, which is newer than all. It takes no memory.
pub fn follow(live: &mut Vec<Record>, held: &Record)
    requires room { vec_len live.old < vec_capacity live.old }
    requires in_order { StandInOrder live.old.items }
    requires own { AllPairs (λ r other. r.number ≢ other.number) live.old.items }
    requires numbered { All (λ r. 1 ≤ r.number) live.old.items }
    requires newest { All (λ r. r.number < held.now.number) live.old.items }
    ensures live { AreInOrder (with_live live.old.items held.now) live.new.items }
    ensures len { vec_len live.new ≤ vec_len live.old + 1 }
    ensures capacity { vec_capacity live.new ≡ vec_capacity live.old }
{
    take_out(live, held.corrects);
    if !is_withdrawal(held.kind) {
        put_in(live, *held);
    }
}

fn put_in(live: &mut Vec<Record>, held: Record)
    requires room { vec_len live.old < vec_capacity live.old }
    requires in_order { StandInOrder live.old.items }
    requires newest { All (λ r. r.number < held.number) live.old.items }
    ensures all { IsPermutation (held ∷ live.old.items) live.new.items }
    ensures in_order { StandInOrder live.new.items }
    ensures len { vec_len live.new ≡ vec_len live.old + 1 }
    ensures capacity { vec_capacity live.new ≡ vec_capacity live.old }
{
    let _dates: Option<Dates> = held.dates;
    let at = how_many_before(live, &held);
    let _ = live.insert(at, held);
}

/// Takes out the record of that number, where 0 is that of none.
fn take_out(live: &mut Vec<Record>, number: u32)
    requires numbered { All (λ r. 1 ≤ r.number) live.old.items }
    requires own { AllPairs (λ r other. r.number ≢ other.number) live.old.items }
    ensures items { live.new.items ≡ filter (λ r. not (r.number == number)) live.old.items }
    ensures len { vec_len live.new ≤ vec_len live.old }
    ensures capacity { vec_capacity live.new ≡ vec_capacity live.old }
{
    if number == 0 {
        return;
    }
    if let Some(place) = place_of(live, number) {
        let _ = live.remove(place);
    }
}

fn place_of(live: &[Record], number: u32) -> Option<usize>
    ensures { result ≡ position (λ r. r.number == number) live.now }
{
    live.iter().position(|held| held.number == number)
}
