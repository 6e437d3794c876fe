//! What is kept of one household.

ghost use Rattle.std.specs.Prelude.{◌≡◌, ◌≤◌, ◌<◌, ◌+◌, ◌-◌, ◌==◌, ◌++◌, ◌∷◌, [], None, Some, if◌then◌else◌, length, slice_index_or, slice_set, vec_len, vec_capacity, OnOk, IsOk};
ghost use Rattle.std.specs.Option.{option_or};
ghost use Rattle.record_history.specs.Ordered.{Follows};
ghost use Rattle.record_history.specs.Households.{room_for, IsIndexed};

use crate::ordered::follow;
use crate::{Dates, Record};
use plain_data::NoMemory;
use std::alloc::Global;

#[derive(Drop)]
pub struct Household {
    /// In the order in which they came.
    pub records: Vec<Record>,
    /// Those that count, in the order of their first days and numbers.
    pub live: Vec<Record>,
    /// For each record the act by which it was first corrected or withdrawn.
    pub corrected: Vec<Option<u32>>,
}

impl Household {
    pub fn new(alloc: Global) -> Household
        ensures records { result.records.items ≡ [] }
        ensures indexed { IsIndexed result }
        ensures room { room_for result ≡ 0 }
    {
        Household {
            records: Vec::new(alloc),
            live: Vec::new(alloc),
            corrected: Vec::new(alloc),
        }
    }

    /// Makes room for one record more.
    pub fn reserve(&mut self) -> Result<(), NoMemory>
        ensures records { self.new.records.items ≡ self.old.records.items }
        ensures indexed { IsIndexed self.old → IsIndexed self.new }
        ensures room { OnOk result (1 ≤ room_for self.new) }
        ensures kept { room_for self.old ≤ room_for self.new }
        ensures succeeds { 1 ≤ room_for self.old → IsOk result }
    {
        let count = self.records.len() + 1;
        make_room(&mut self.records, count)?;
        make_room(&mut self.live, count)?;
        make_room(&mut self.corrected, count)
    }

    /// Holds a record more, for which there is room. It takes no memory.
    pub fn push(&mut self, held: Record)
        requires room { 1 ≤ room_for self.old }
        requires indexed { IsIndexed self.old }
        requires follows { Follows self.old.records.items held }
        ensures records { self.new.records.items ≡ self.old.records.items ++ held ∷ [] }
        ensures indexed { IsIndexed self.new }
        ensures room { room_for self.new ≡ room_for self.old - 1 }
    {
        let _dates: Option<Dates> = held.dates;
        follow(&mut self.live, &held);
        mark_and_push(&mut self.corrected, held.corrects, held.act);
        self.records.push_reserved(held);
    }
}

/// Makes room for so many items in all.
fn make_room<T>(items: &mut Vec<T>, count: usize) -> Result<(), NoMemory>
    ensures items { items.new.items ≡ items.old.items }
    ensures len { vec_len items.new ≡ vec_len items.old }
    ensures room { OnOk result (count ≤ vec_capacity items.new) }
    ensures kept { vec_capacity items.old ≤ vec_capacity items.new }
    ensures succeeds { count ≤ vec_capacity items.old → IsOk result }
{
    if items.capacity() < count {
        let more = count - items.len();
        items.reserve(more)?;
    }
    Ok(())
}

/// Tells by which act the record of that number was corrected, and that the next one isn't.
fn mark_and_push(corrected: &mut Vec<Option<u32>>, number: u32, act: u32)
    requires number { number ≤ length corrected.old.items }
    requires room { vec_len corrected.old < vec_capacity corrected.old }
    ensures items { corrected.new.items ≡ (if number == 0 then corrected.old.items else slice_set corrected.old.items (number - 1) (option_or (slice_index_or corrected.old.items (number - 1) None) (Some act))) ++ None ∷ [] }
    ensures len { vec_len corrected.new ≡ vec_len corrected.old + 1 }
    ensures capacity { vec_capacity corrected.new ≡ vec_capacity corrected.old }
{
    mark(corrected, number, act);
    corrected.push_reserved(None);
}

/// Tells the act by which the record of that number was corrected or withdrawn, if there is none yet.
fn mark(corrected: &mut [Option<u32>], number: u32, act: u32)
    requires { number ≤ length corrected.old }
    ensures { corrected.new ≡ (if number == 0 then corrected.old else slice_set corrected.old (number - 1) (option_or (slice_index_or corrected.old (number - 1) None) (Some act))) }
{
    if number == 0 {
        return;
    }
    let place = number as usize - 1;
    let first = corrected[place];
    corrected[place] = first.or(Some(act));
}
