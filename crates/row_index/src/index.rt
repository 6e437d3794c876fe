//! The index: entries by key, found by halves.

use std::alloc::{AllocError, Global};
use std::marker::Model;

/// A row by its key.
#[derive(Clone, Copy, Debug, PartialEq, Eq)]
pub struct Entry {
    pub key: u64,
    /// The place of the row among all rows, from 0.
    pub place: usize,
}

/// The places of rows by their keys.
///
/// Contracts see the entries in the order of their keys, and beside them the room for more.
#[derive(Debug, Drop)]
pub struct RowIndex {
    entries: Vec<Entry>,
}

impl Model for RowIndex {
    ghost use Rattle.std.specs.Prelude.{◌-◌, vec_len, vec_capacity};
    ghost use Rattle.row_index.specs.Index.{Index, KeysNeverFall};

    ghost Value = { Index };

    ghost view = { λ index. record {
      entries = index.entries.items;
      room = vec_capacity index.entries - vec_len index.entries;
    } };

    ghost invariant = { λ index. KeysNeverFall index.entries.items };
}

impl RowIndex {
    ghost use Rattle.std.specs.Prelude.{◌≡◌, ◌+◌, ◌≤◌, [], OnOk, IsOk};
    ghost use Rattle.row_index.specs.Index.{KeysNeverFall, place_of, with_entry};

    pub fn new(alloc: Global) -> RowIndex
        ensures { result.entries ≡ [] }
    {
        RowIndex {
            entries: Vec::new(alloc),
        }
    }

    /// Makes room for one more row, and fails only where memory ran out.
    pub fn reserve(&mut self) -> Result<(), AllocError>
        ensures entries { self.new.entries ≡ self.old.entries }
        ensures room { OnOk result (1 ≤ self.new.room) }
        ensures succeeds { 1 ≤ self.old.room → IsOk result }
        ensures room_kept { self.old.room ≤ self.new.room }
    {
        self.entries.reserve(1)
    }

    /// Adds a row, for which there is room. It takes no memory.
    pub fn insert(&mut self, key: u64, place: usize)
        requires { 1 ≤ self.old.room }
        ensures entries { self.new.entries ≡ with_entry self.old.entries (record { key = key; place = place }) }
        ensures room { self.new.room + 1 ≡ self.old.room }
    {
        let at = first_above(&self.entries, key);
        let _ = self.entries.insert(at, Entry { key, place });
    }

    /// The place of the first row that was added with that key.
    pub fn find(&self, key: u64) -> Option<usize>
        ensures value { result ≡ place_of self.now.entries key }
        ensures in_order { KeysNeverFall self.now.entries }
    {
        first_with(&self.entries, key).map(|entry| entry.place)
    }
}

ghost use Rattle.std.specs.Prelude.{◌≡◌, ◌≤◌, true, false, nat_le, nat_lt, length, find, slice_get};
ghost use Rattle.std.specs.Option.{option_copied};
ghost use Rattle.std.specs.List.Sorted.{IsPartitionPoint};
ghost use Rattle.row_index.specs.Index.{KeysNeverFall, has_key};

// Where the entries begin whose keys are above that one.
fn first_above(entries: &[Entry], key: u64) -> usize
    requires { KeysNeverFall entries.now }
    ensures bound { result ≤ length entries.now }
    ensures point { IsPartitionPoint (λ e. nat_le e.key key ≡ true) (λ e. nat_le e.key key ≡ false) entries.now result }
{
    entries.partition_point(|entry| entry.key <= key)
}

// Where the entries begin whose keys are not below that one.
fn first_from(entries: &[Entry], key: u64) -> usize
    requires { KeysNeverFall entries.now }
    ensures bound { result ≤ length entries.now }
    ensures point { IsPartitionPoint (λ e. nat_lt e.key key ≡ true) (λ e. nat_lt e.key key ≡ false) entries.now result }
{
    entries.partition_point(|entry| entry.key < key)
}

fn entry_at(entries: &[Entry], at: usize) -> Option<&Entry>
    ensures { option_copied result ≡ slice_get entries.now at }
{
    entries.get(at)
}

// The first entry of that key.
fn first_with(entries: &[Entry], key: u64) -> Option<&Entry>
    requires { KeysNeverFall entries.now }
    ensures { option_copied result ≡ find (has_key key) entries.now }
{
    let Some(entry) = entry_at(entries, first_from(entries, key)) else {
        return None;
    };
    if entry.key == key { Some(entry) } else { None }
}
