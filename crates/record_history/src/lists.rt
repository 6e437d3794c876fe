//! The households of a history, by their places.

ghost use Rattle.std.specs.Prelude.{◌≡◌, ◌≤◌, ◌<◌, ◌-◌, ◌++◌, ◌∷◌, [], ℕ, length, nat_lt, slice_index_or, slice_set, vec_len, vec_capacity, if◌then◌else◌, All, OnOk, IsOk};
ghost use Rattle.record_history.specs.Held.{records_of, with_place};
ghost use Rattle.record_history.specs.Ordered.{Follows};
ghost use Rattle.record_history.specs.Households.{lists_in, room_in, room_to_come, all_room, IsIndexed};

use crate::household::Household;
use crate::{Dates, Record};
use plain_data::NoMemory;
use std::mem;

/// The household, and the one to come in place of one that isn't there.
pub fn household_of<'a>(
    households: &'a Vec<Household>,
    next: &'a Household,
    household: u32,
) -> &'a Household
    requires indexed { All IsIndexed households.now.items }
    requires next { next.now.records.items ≡ [] }
    requires next_indexed { IsIndexed next.now }
    ensures records { result.now.records.items ≡ records_of (lists_in households.now.items) household }
    ensures indexed { IsIndexed result.now }
{
    if household == 0 {
        return next;
    }
    match households.get(household as usize - 1) {
        Some(own) => own,
        None => next,
    }
}

/// Makes room for one more record at that place, which is that of a household or of the one to come.
pub fn reserve_at(
    households: &mut Vec<Household>,
    next: &mut Household,
    place: usize,
) -> Result<(), NoMemory>
    requires { place ≤ length households.old.items }
    ensures lists { lists_in households.new.items ≡ lists_in households.old.items }
    ensures indexed { All IsIndexed households.old.items → All IsIndexed households.new.items }
    ensures next { next.new.records.items ≡ next.old.records.items }
    ensures next_indexed { IsIndexed next.old → IsIndexed next.new }
    ensures room { OnOk result (1 ≤ slice_index_or (all_room households.new next.new) place 0) }
    ensures kept { (other : ℕ) → slice_index_or (all_room households.old next.old) other 0 ≤ slice_index_or (all_room households.new next.new) other 0 }
    ensures succeeds { 1 ≤ slice_index_or (all_room households.old next.old) place 0 → IsOk result }
{
    if place < households.len() {
        reserve_there(households, place)
    } else {
        reserve_next(households, next)
    }
}

fn reserve_there(households: &mut Vec<Household>, place: usize) -> Result<(), NoMemory>
    requires { place < length households.old.items }
    ensures lists { lists_in households.new.items ≡ lists_in households.old.items }
    ensures indexed { All IsIndexed households.old.items → All IsIndexed households.new.items }
    ensures len { vec_len households.new ≡ vec_len households.old }
    ensures capacity { vec_capacity households.new ≡ vec_capacity households.old }
    ensures room { OnOk result (1 ≤ slice_index_or (room_in households.new.items) place 0) }
    ensures kept { (other : ℕ) → slice_index_or (room_in households.old.items) other 0 ≤ slice_index_or (room_in households.new.items) other 0 }
    ensures succeeds { 1 ≤ slice_index_or (room_in households.old.items) place 0 → IsOk result }
{
    households[place].reserve()
}

fn reserve_next(households: &mut Vec<Household>, next: &mut Household) -> Result<(), NoMemory>
    ensures households { households.new.items ≡ households.old.items }
    ensures next { next.new.records.items ≡ next.old.records.items }
    ensures next_indexed { IsIndexed next.old → IsIndexed next.new }
    ensures room { OnOk result (1 ≤ room_to_come households.new next.new) }
    ensures kept { room_to_come households.old next.old ≤ room_to_come households.new next.new }
    ensures succeeds { 1 ≤ room_to_come households.old next.old → IsOk result }
{
    households.reserve(1)?;
    next.reserve()
}

/// Adds a record at that place, for which there is room. It takes no memory.
pub fn push_at(households: &mut Vec<Household>, next: &mut Household, place: usize, held: Record)
    requires room { 1 ≤ slice_index_or (all_room households.old next.old) place 0 }
    requires indexed { All IsIndexed households.old.items }
    requires next { next.old.records.items ≡ [] }
    requires next_indexed { IsIndexed next.old }
    requires follows { Follows (slice_index_or (lists_in households.old.items) place []) held }
    ensures lists { lists_in households.new.items ≡ slice_set (with_place (lists_in households.old.items) place) place (slice_index_or (lists_in households.old.items) place [] ++ held ∷ []) }
    ensures indexed { All IsIndexed households.new.items }
    ensures next { next.new.records.items ≡ [] }
    ensures next_indexed { IsIndexed next.new }
    ensures room { all_room households.new next.new ≡ slice_set (all_room households.old next.old) place (slice_index_or (all_room households.old next.old) place 0 - 1)
        ++ (if nat_lt place (length households.old.items) then [] else 0 ∷ []) }
{
    let _dates: Option<Dates> = held.dates;
    if place < households.len() {
        push_there(households, place, held);
    } else {
        push_next(households, next, held);
    }
}

fn push_there(households: &mut Vec<Household>, place: usize, held: Record)
    requires room { 1 ≤ slice_index_or (room_in households.old.items) place 0 }
    requires indexed { All IsIndexed households.old.items }
    requires follows { Follows (slice_index_or (lists_in households.old.items) place []) held }
    ensures lists { lists_in households.new.items ≡ slice_set (lists_in households.old.items) place (slice_index_or (lists_in households.old.items) place [] ++ held ∷ []) }
    ensures indexed { All IsIndexed households.new.items }
    ensures len { vec_len households.new ≡ vec_len households.old }
    ensures capacity { vec_capacity households.new ≡ vec_capacity households.old }
    ensures room { room_in households.new.items ≡ slice_set (room_in households.old.items) place (slice_index_or (room_in households.old.items) place 0 - 1) }
{
    let _dates: Option<Dates> = held.dates;
    households[place].push(held);
}

fn push_next(households: &mut Vec<Household>, next: &mut Household, held: Record)
    requires room { 1 ≤ room_to_come households.old next.old }
    requires indexed { All IsIndexed households.old.items }
    requires next { next.old.records.items ≡ [] }
    requires next_indexed { IsIndexed next.old }
    requires follows { Follows [] held }
    ensures lists { lists_in households.new.items ≡ lists_in households.old.items ++ (held ∷ []) ∷ [] }
    ensures indexed { All IsIndexed households.new.items }
    ensures next { next.new.records.items ≡ [] }
    ensures next_indexed { IsIndexed next.new }
    ensures room { room_in households.new.items ≡ room_in households.old.items ++ (room_to_come households.old next.old - 1) ∷ [] }
    ensures to_come { room_to_come households.new next.new ≡ 0 }
{
    let _dates: Option<Dates> = held.dates;
    let empty = Household::new(*next.records.allocator());
    let mut first = mem::replace(next, empty);
    first.push(held);
    households.push_reserved(first);
}
