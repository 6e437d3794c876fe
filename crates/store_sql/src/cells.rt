//! A cell of a book's file: of each thing that a book holds its cell, and of a cell what it holds.

ghost use Rattle.std.specs.Prelude.{◌≡◌, ◌<◌, length, pos, true, false, IfOk, MatchOption, Option, option_map};
ghost use Rattle.sqlite.specs.declared.types.Value.TheVariants.{Null, Int, Text as Words};
ghost use Rattle.sqlite_value.specs.Value.{owned};
ghost use Rattle.sqlite.specs.{Values.bound_value, Order.column};
ghost use Rattle.sqlite_trees.specs.View.{is_int};
ghost use Rattle.store_sql.specs.Cells.{number_cell as cell_of_number, day_cell as cell_of_day, month_cell as cell_of_month, kind_cell as cell_of_kind, flag_cell as cell_of_flag, maybe_day_cell as cell_of_maybe_day, is_number, is_day, is_month, is_kind, is_flag, is_amount, is_maybe_day, is_words};

use days_core::{Day, Month};
use plain_data::{NoMemory, SharedText};
use record_history::Kind;
use sqlite::Row;
use sqlite::types::ValueRef;
use std::alloc::Global;

/// How many days lie between 1880-01-01 and 1970-01-01.
const DAYS_BEFORE: i64 = 32_872;

/// How many months lie before 1880.
const MONTHS_BEFORE: i64 = 22_560;

#[tactic(auto, unfolding(crate::specs::Cells::is_number))]
pub(crate) fn number_cell<'a>(number: u32) -> ValueRef<'a>
    ensures cell { bound_value (owned result) ≡ cell_of_number number }
    ensures fits { is_number (cell_of_number number) ≡ true }
{
    ValueRef::Int(i64::from(number))
}

#[tactic(auto, unfolding(crate::specs::Cells::is_day))]
pub(crate) fn day_cell<'a>(day: Day) -> ValueRef<'a>
    ensures cell { bound_value (owned result) ≡ cell_of_day day }
    ensures fits { is_day (cell_of_day day) ≡ true }
{
    ValueRef::Int(i64::from(day.number()) - DAYS_BEFORE)
}

#[tactic(auto, unfolding(crate::specs::Cells::is_month))]
pub(crate) fn month_cell<'a>(month: Month) -> ValueRef<'a>
    ensures cell { bound_value (owned result) ≡ cell_of_month month }
    ensures fits { is_month (cell_of_month month) ≡ true }
{
    ValueRef::Int(i64::from(month.number()) + MONTHS_BEFORE)
}

#[tactic(auto, unfolding(crate::specs::Cells::is_kind))]
pub(crate) fn kind_cell<'a>(kind: Kind) -> ValueRef<'a>
    ensures cell { bound_value (owned result) ≡ cell_of_kind kind }
    ensures fits { is_kind (cell_of_kind kind) ≡ true }
{
    match kind {
        Kind::MI => ValueRef::Int(1),
        Kind::IC => ValueRef::Int(2),
        Kind::AR => ValueRef::Int(3),
        Kind::IR => ValueRef::Int(4),
        Kind::GR => ValueRef::Int(5),
        Kind::UT => ValueRef::Int(6),
        Kind::MO => ValueRef::Int(7),
        Kind::TM => ValueRef::Int(8),
        Kind::WD => ValueRef::Int(9),
    }
}

#[tactic(auto, unfolding(crate::specs::Cells::is_flag))]
pub(crate) fn flag_cell<'a>(flag: bool) -> ValueRef<'a>
    ensures cell { bound_value (owned result) ≡ cell_of_flag flag }
    ensures fits { is_flag (cell_of_flag flag) ≡ true }
{
    if flag {
        ValueRef::Int(1)
    } else {
        ValueRef::Int(0)
    }
}

#[tactic(auto, unfolding(crate::specs::Cells::is_amount))]
pub(crate) fn amount_cell<'a>(amount: i32) -> ValueRef<'a>
    ensures cell { bound_value (owned result) ≡ Int amount }
    ensures fits { is_amount (Int amount) ≡ true }
{
    ValueRef::Int(i64::from(amount))
}

#[tactic(auto, unfolding(crate::specs::Cells::is_maybe_day))]
pub(crate) fn maybe_day_cell<'a>(day: Option<Day>) -> ValueRef<'a>
    ensures cell { bound_value (owned result) ≡ cell_of_maybe_day day }
    ensures fits { is_maybe_day (cell_of_maybe_day day) ≡ true }
{
    match day {
        None => ValueRef::Null,
        Some(day) => day_cell(day),
    }
}

#[tactic(auto, unfolding(crate::specs::Cells::is_words))]
pub(crate) fn words_cell<'a>(words: &'a SharedText) -> ValueRef<'a>
    ensures cell { bound_value (owned result) ≡ Words words.now }
    ensures fits { is_words (Words words.now) ≡ true }
{
    ValueRef::Text(words.as_bytes())
}

/// The number in a cell.
fn int_at(row: &Row, at: usize) -> Option<i64>
    requires { at < length row.now }
    ensures { MatchOption result (is_int (column row.now at) ≡ false) (λ number. column row.now at ≡ Int number) }
{
    match row.get_ref(at) {
        Ok(ValueRef::Int(number)) => Some(number),
        _ => None,
    }
}

#[tactic(auto, unfolding(crate::specs::Cells::is_number))]
pub fn number_at(row: &Row, at: usize) -> Option<u32>
    requires { at < length row.now }
    ensures { MatchOption result (is_number (column row.now at) ≡ false) (λ n. (is_number (column row.now at) ≡ true) × (cell_of_number n ≡ column row.now at)) }
{
    let number = int_at(row, at)?;
    if number >= 0 && number <= 4_294_967_295 {
        Some(number as u32)
    } else {
        None
    }
}

#[tactic(auto, unfolding(crate::specs::Cells::is_day))]
pub(crate) fn day_at(row: &Row, at: usize) -> Option<Day>
    requires { at < length row.now }
    ensures { MatchOption result (is_day (column row.now at) ≡ false) (λ d. (is_day (column row.now at) ≡ true) × (cell_of_day d ≡ column row.now at)) }
{
    let number = int_at(row, at)?;
    if number >= -DAYS_BEFORE && number <= 84_005 {
        Day::from_number((number + DAYS_BEFORE) as u32)
    } else {
        None
    }
}

#[tactic(auto, unfolding(crate::specs::Cells::is_month))]
pub(crate) fn month_at(row: &Row, at: usize) -> Option<Month>
    requires { at < length row.now }
    ensures { MatchOption result (is_month (column row.now at) ≡ false) (λ m. (is_month (column row.now at) ≡ true) × (cell_of_month m ≡ column row.now at)) }
{
    let number = int_at(row, at)?;
    if number >= MONTHS_BEFORE && number <= 26_399 {
        Month::from_number((number - MONTHS_BEFORE) as u32)
    } else {
        None
    }
}

#[tactic(auto, unfolding(crate::specs::Cells::is_kind))]
pub(crate) fn kind_at(row: &Row, at: usize) -> Option<Kind>
    requires { at < length row.now }
    ensures { MatchOption result (is_kind (column row.now at) ≡ false) (λ k. (is_kind (column row.now at) ≡ true) × (cell_of_kind k ≡ column row.now at)) }
{
    match int_at(row, at)? {
        1 => Some(Kind::MI),
        2 => Some(Kind::IC),
        3 => Some(Kind::AR),
        4 => Some(Kind::IR),
        5 => Some(Kind::GR),
        6 => Some(Kind::UT),
        7 => Some(Kind::MO),
        8 => Some(Kind::TM),
        9 => Some(Kind::WD),
        _ => None,
    }
}

#[tactic(auto, unfolding(crate::specs::Cells::is_flag))]
pub(crate) fn flag_at(row: &Row, at: usize) -> Option<bool>
    requires { at < length row.now }
    ensures { MatchOption result (is_flag (column row.now at) ≡ false) (λ b. (is_flag (column row.now at) ≡ true) × (cell_of_flag b ≡ column row.now at)) }
{
    match int_at(row, at)? {
        0 => Some(false),
        1 => Some(true),
        _ => None,
    }
}

#[tactic(auto, unfolding(crate::specs::Cells::is_amount))]
pub(crate) fn amount_at(row: &Row, at: usize) -> Option<i32>
    requires { at < length row.now }
    ensures { MatchOption result (is_amount (column row.now at) ≡ false) (λ n. (is_amount (column row.now at) ≡ true) × (Int n ≡ column row.now at)) }
{
    let number = int_at(row, at)?;
    if number >= -2_147_483_648 && number <= 2_147_483_647 {
        Some(number as i32)
    } else {
        None
    }
}

#[tactic(auto, unfolding(crate::specs::Cells::is_maybe_day))]
pub(crate) fn maybe_day_at(row: &Row, at: usize) -> Option<Option<Day>>
    requires { at < length row.now }
    ensures { MatchOption result (is_maybe_day (column row.now at) ≡ false) (λ d. (is_maybe_day (column row.now at) ≡ true) × (cell_of_maybe_day d ≡ column row.now at)) }
{
    if let Ok(ValueRef::Null) = row.get_ref(at) {
        return Some(None);
    }
    let day = day_at(row, at)?;
    Some(Some(day))
}

#[tactic(auto, unfolding(crate::specs::Cells::is_words))]
pub(crate) fn words_at(alloc: Global, row: &Row, at: usize) -> Result<Option<SharedText>, NoMemory>
    requires { at < length row.now }
    ensures { IfOk result (λ read. MatchOption read (is_words (column row.now at) ≡ false) (λ text. (is_words (column row.now at) ≡ true) × (Words text ≡ column row.now at))) }
{
    match row.get_ref(at) {
        Ok(ValueRef::Text(bytes)) => {
            let bytes = Vec::from_slice(alloc, bytes)?;
            Ok(Some(SharedText::new(bytes)?))
        }
        _ => Ok(None),
    }
}
