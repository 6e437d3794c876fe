//! What counts among the records of one household.

ghost use Rattle.std.specs.Prelude.{◌≡◌, ◌≤◌, ◌&&◌, ◌==◌, nat_le, not, max, fold, find, option_copied};
ghost use Rattle.std.specs.List.{list_any};
ghost use Rattle.record_history.specs.Records.{as_of, is_live, is_live_as_of, in_force, in_force_as_of, newest_number, newest_act};
ghost use Rattle.record_history.specs.Ordered.{corrected_by};
ghost use Rattle.record_history.specs.Households.{IsIndexed};

use crate::household::Household;
use crate::live::is_withdrawal;
use crate::ordered::{item_at, last_begun};
use crate::{Record, later};
use days_core::Day;

pub fn newest_among(own: &Household) -> u32
    requires { IsIndexed own.now }
    ensures { result ≡ newest_number own.now.records.items }
{
    match own.records.last() {
        Some(held) => held.number,
        None => 0,
    }
}

pub fn newest_act_among(own: &Household) -> u32
    requires { IsIndexed own.now }
    ensures { result ≡ newest_act own.now.records.items }
{
    match own.records.last() {
        Some(held) => held.act,
        None => 0,
    }
}

pub fn record_among(own: &Household, number: u32) -> Option<&Record>
    requires { IsIndexed own.now }
    ensures { option_copied result ≡ find (λ r. r.number == number) own.now.records.items }
{
    if number == 0 {
        return None;
    }
    item_at(&own.records, number as usize - 1)
}

pub fn is_live_among(own: &Household, number: u32, act: u32) -> bool
    requires { IsIndexed own.now }
    ensures { result ≡ is_live_as_of act own.now.records.items number }
{
    match record_among(own, number) {
        Some(held) => held.act <= act && is_live_at(own, held, act),
        None => false,
    }
}

pub fn in_force_among(own: &Household, day: Day) -> Option<&Record>
    requires { IsIndexed own.now }
    ensures { option_copied result ≡ in_force own.now.records.items day }
{
    last_begun(&own.live, day)
}

pub fn in_force_at(own: &Household, day: Day, act: u32) -> Option<&Record>
    requires { IsIndexed own.now }
    ensures { option_copied result ≡ in_force_as_of act own.now.records.items day }
{
    if newest_act_among(own) <= act {
        in_force_among(own, day)
    } else {
        in_force_earlier(own, day, act)
    }
}

fn in_force_earlier(own: &Household, day: Day, act: u32) -> Option<&Record>
    requires { IsIndexed own.now }
    ensures { option_copied result ≡ in_force_as_of act own.now.records.items day }
{
    let mut latest = None;
    for held in &own.records {
        if counts_on(own, held, day, act) {
            latest = later(latest, held);
        }
    }
    latest
}

fn counts_on(own: &Household, held: &Record, day: Day, act: u32) -> bool
    requires indexed { IsIndexed own.now }
    requires number { 1 ≤ held.now.number }
    ensures { result ≡ ((nat_le held.now.act act && is_live (as_of act own.now.records.items) held.now) && nat_le held.now.from day) }
{
    held.act <= act && is_live_at(own, held, act) && held.from <= day
}

fn is_live_at(own: &Household, held: &Record, act: u32) -> bool
    requires indexed { IsIndexed own.now }
    requires number { 1 ≤ held.now.number }
    ensures { result ≡ is_live (as_of act own.now.records.items) held.now }
{
    !is_withdrawal(held.kind) && !is_corrected(own, held.number, act)
}

fn is_corrected(own: &Household, number: u32, act: u32) -> bool
    requires indexed { IsIndexed own.now }
    requires number { 1 ≤ number }
    ensures { result ≡ list_any (λ other. other.corrects == number) (as_of act own.now.records.items) }
{
    match corrected_by(own, number) {
        Some(first) => first <= act,
        None => false,
    }
}

/// The act by which the record of that number was first corrected or withdrawn.
fn corrected_by(own: &Household, number: u32) -> Option<u32>
    requires indexed { IsIndexed own.now }
    requires number { 1 ≤ number }
    ensures { result ≡ corrected_by own.now.records.items number }
{
    match item_at(&own.corrected, number as usize - 1) {
        Some(first) => *first,
        None => None,
    }
}
