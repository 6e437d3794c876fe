//! Units by number and by name, without a scan.

ghost use Rattle.std.specs.Prelude.{◌≡◌, ◌<◌, ◌≤◌, ◌+◌, ◌∷◌, ◌++◌, [], vec_len, vec_capacity, true, false, length, find, slice_get, IfSome};
ghost use Rattle.std.specs.List.Sorted.{IsPartitionPoint};
ghost use Rattle.std.specs.Option.{option_copied};
ghost use Rattle.rent_table.specs.Table.{unit_at, has_name, number_of, HaveOwnNames};
ghost use Rattle.row_index.specs.Index.{index_of};
ghost use Rattle.rent_table.specs.Names.{name_at, is_before, AreByName};

use crate::Unit;
use plain_data::Text;
use row_index::{RowIndex, index_finds, index_grows};
use std::cmp::Ordering;

fn unit_at_place(units: &[Unit], place: usize) -> Option<&Unit>
    ensures { option_copied result ≡ slice_get units.now place }
{
    units.get(place)
}

fn place_at(places: &[usize], at: usize) -> Option<usize>
    ensures { result ≡ slice_get places.now at }
{
    places.get(at).copied()
}

/// Puts the place of a unit that comes after the others into the index. It takes no memory.
pub fn add_by_number(units: &[Unit], by_number: &mut RowIndex, unit: &Unit)
    requires room { 1 ≤ by_number.old.room }
    requires by_number { by_number.old.entries ≡ index_of number_of units.now }
    ensures by_number { by_number.new.entries ≡ index_of number_of (units.now ++ unit.now ∷ []) }
    ensures room { by_number.new.room + 1 ≡ by_number.old.room }
{
    index_grows::<Unit>();
    by_number.insert(u64::from(unit.number), units.len());
}

pub fn unit_of_number<'a>(units: &'a [Unit], by_number: &RowIndex, number: u32) -> Option<&'a Unit>
    requires { by_number.now.entries ≡ index_of number_of units.now }
    ensures { option_copied result ≡ unit_at units.now number }
{
    index_finds::<Unit>();
    let Some(place) = by_number.find(u64::from(number)) else {
        return None;
    };
    unit_at_place(units, place)
}

fn name_at(units: &[Unit], place: usize) -> &[u8]
    ensures { result.now ≡ name_at units.now place }
{
    match unit_at_place(units, place) {
        Some(unit) => unit.name.as_bytes(),
        None => &[],
    }
}

fn is_before(units: &[Unit], place: usize, name: &[u8]) -> bool
    ensures { result ≡ is_before units.now name.now place }
{
    name_at(units, place).cmp(name) == Ordering::Less
}

// How many units have a name that comes before that one.
fn names_before(units: &[Unit], by_name: &[usize], name: &[u8]) -> usize
    requires { AreByName units.now by_name.now }
    ensures bound { result ≤ length by_name.now }
    ensures point { IsPartitionPoint (λ place. is_before units.now name.now place ≡ true) (λ place. is_before units.now name.now place ≡ false) by_name.now result }
{
    by_name.partition_point(|&place| is_before(units, place, name))
}

/// Puts the place of a unit that comes after the others among theirs. It takes no memory.
pub fn add_by_name(units: &[Unit], by_name: &mut Vec<usize>, unit: &Unit)
    requires room { vec_len by_name.old < vec_capacity by_name.old }
    requires by_name { AreByName units.now by_name.old.items }
    ensures by_name { AreByName (units.now ++ unit.now ∷ []) by_name.new.items }
    ensures len { vec_len by_name.new ≡ vec_len by_name.old + 1 }
    ensures capacity { vec_capacity by_name.new ≡ vec_capacity by_name.old }
{
    let at = names_before(units, by_name, unit.name.as_bytes());
    let _ = by_name.insert(at, units.len());
}

pub fn unit_of_name<'a>(units: &'a [Unit], by_name: &[usize], name: &Text) -> Option<&'a Unit>
    requires own { HaveOwnNames units.now }
    requires by_name { AreByName units.now by_name.now }
    ensures { option_copied result ≡ find (has_name name.now) units.now }
{
    let Some(place) = place_at(by_name, names_before(units, by_name, name.as_bytes())) else {
        return None;
    };
    let Some(unit) = unit_at_place(units, place) else {
        return None;
    };
    if unit.name == *name { Some(unit) } else { None }
}
