//! The two schedules of the form.

ghost use Rattle.std.specs.Prelude.{◌≡◌, ◌==◌, ◌++◌, not, filter, OnOk};
ghost use Rattle.std.specs.List.{flat_map};
ghost use Rattle.office_core.specs.Below.office_step.Known.{known_of};
ghost use Rattle.office_core.specs.Below.office_answers.Households.{name_in};
ghost use Rattle.forms_text.specs.Form.{adjusting_columns, adjusting_header, adjusting_line, adjusting_schedule, own_columns, own_header, own_line, own_schedule, unit_name};

use days_core::{Month, text_of_day, text_of_month};
use office_core::{Office, Voucher};
use plain_data::NoMemory;
use std::alloc::Global;
use text_columns::{amount_text, number_text, push, push_left, push_right};
use voucher_core::Line;

/// Adds the schedule of the lines for the month itself.
#[tactic(auto, unfolding(crate::specs::Form::own_schedule))]
pub fn push_own_schedule(
    alloc: Global,
    text: &mut Vec<u8>,
    office: &Office,
    voucher: &Voucher,
) -> Result<(), NoMemory>
    ensures { OnOk result (text.new.items ≡ text.old.items ++ own_schedule (known_of office.now.book) voucher.now) }
{
    push(text, b"SCHEDULE OF TENANT ASSISTANCE PAYMENTS DUE\n")?;
    push_own_header(text)?;
    push_own_lines(alloc, text, office, voucher.lines.as_slice(), voucher.month)
}

fn push_own_lines(
    alloc: Global,
    text: &mut Vec<u8>,
    office: &Office,
    lines: &[Line],
    month: Month,
) -> Result<(), NoMemory>
    ensures { OnOk result (text.new.items ≡ text.old.items ++ flat_map (own_line (known_of office.now.book)) (filter (λ line. line.for_month == month) lines.now)) }
{
    for line in lines {
        if line.for_month == month {
            push_own_line(alloc, text, office, line)?;
        }
    }
    Ok(())
}

fn push_own_header(text: &mut Vec<u8>) -> Result<(), NoMemory>
    ensures { OnOk result (text.new.items ≡ text.old.items ++ own_header) }
{
    let columns = OwnColumns {
        household: b"Household",
        unit: b"Unit",
        first: b"First",
        last: b"Last",
        record_number: b"Record",
        amount: b"Amount",
        name: b"Name",
    };
    push_own_columns(text, &columns)
}

#[tactic(auto, unfolding(crate::specs::Form::own_line))]
fn push_own_line(
    alloc: Global,
    text: &mut Vec<u8>,
    office: &Office,
    line: &Line,
) -> Result<(), NoMemory>
    ensures { OnOk result (text.new.items ≡ text.old.items ++ own_line (known_of office.now.book) line.now) }
{
    let household = number_text(alloc, line.household.into())?;
    let first = text_of_day(alloc, line.first)?;
    let last = text_of_day(alloc, line.last)?;
    let record_number = number_text(alloc, line.new.into())?;
    let amount = amount_text(alloc, line.amount.into())?;
    let columns = OwnColumns {
        household: household.as_bytes(),
        unit: unit_name(office, line),
        first: first.as_bytes(),
        last: last.as_bytes(),
        record_number: record_number.as_bytes(),
        amount: amount.as_bytes(),
        name: household_name(office, line.household),
    };
    push_own_columns(text, &columns)
}

/// The name of the unit of the record by which the line is paid.
fn unit_name<'a>(office: &'a Office, line: &Line) -> &'a [u8]
    ensures { result.now ≡ unit_name (known_of office.now.book) line.now }
{
    match office.history().record_at(line.household, line.new) {
        Some(held) => match office.rents().unit(held.unit) {
            Some(unit) => unit.name.as_bytes(),
            None => b"",
        },
        None => b"",
    }
}

fn household_name(office: &Office, household: u32) -> &[u8]
    ensures { result.now ≡ name_in (known_of office.now.book) household }
{
    match office.household_name(household) {
        Some(name) => name.as_bytes(),
        None => b"",
    }
}

#[derive(Drop)]
struct OwnColumns<'a> {
    household: &'a [u8],
    unit: &'a [u8],
    first: &'a [u8],
    last: &'a [u8],
    record_number: &'a [u8],
    amount: &'a [u8],
    name: &'a [u8],
}

fn push_own_columns(text: &mut Vec<u8>, columns: &OwnColumns) -> Result<(), NoMemory>
    ensures { let it = columns.now in OnOk result (text.new.items ≡ text.old.items ++ own_columns it.household.now it.unit.now it.first.now it.last.now it.record_number.now it.amount.now it.name.now) }
{
    push_right(text, 9, columns.household)?;
    push(text, b" ")?;
    push_left(text, 10, columns.unit)?;
    push(text, b" ")?;
    push_left(text, 10, columns.first)?;
    push(text, b" ")?;
    push_left(text, 10, columns.last)?;
    push(text, b" ")?;
    push_right(text, 6, columns.record_number)?;
    push(text, b" ")?;
    push_right(text, 10, columns.amount)?;
    push(text, b" ")?;
    push(text, columns.name)?;
    push(text, b"\n")
}

/// Adds the schedule of the lines that change earlier months.
#[tactic(auto, unfolding(crate::specs::Form::adjusting_schedule))]
pub fn push_adjusting_schedule(
    alloc: Global,
    text: &mut Vec<u8>,
    voucher: &Voucher,
) -> Result<(), NoMemory>
    ensures { OnOk result (text.new.items ≡ text.old.items ++ adjusting_schedule voucher.now) }
{
    push(text, b"SCHEDULE OF ADJUSTMENTS\n")?;
    push_adjusting_header(text)?;
    push_adjusting_lines(alloc, text, voucher.lines.as_slice(), voucher.month)
}

fn push_adjusting_lines(
    alloc: Global,
    text: &mut Vec<u8>,
    lines: &[Line],
    month: Month,
) -> Result<(), NoMemory>
    ensures { OnOk result (text.new.items ≡ text.old.items ++ flat_map adjusting_line (filter (λ line. not (line.for_month == month)) lines.now)) }
{
    for line in lines {
        if line.for_month != month {
            push_adjusting_line(alloc, text, line)?;
        }
    }
    Ok(())
}

fn push_adjusting_header(text: &mut Vec<u8>) -> Result<(), NoMemory>
    ensures { OnOk result (text.new.items ≡ text.old.items ++ adjusting_header) }
{
    let columns = AdjustingColumns {
        household: b"Household",
        month: b"Month",
        first: b"First",
        last: b"Last",
        old: b"Old",
        new: b"New",
        amount: b"Amount",
    };
    push_adjusting_columns(text, &columns)
}

#[tactic(auto, unfolding(crate::specs::Form::adjusting_line))]
fn push_adjusting_line(alloc: Global, text: &mut Vec<u8>, line: &Line) -> Result<(), NoMemory>
    ensures { OnOk result (text.new.items ≡ text.old.items ++ adjusting_line line.now) }
{
    let household = number_text(alloc, line.household.into())?;
    let month = text_of_month(alloc, line.for_month)?;
    let first = text_of_day(alloc, line.first)?;
    let last = text_of_day(alloc, line.last)?;
    let old = number_text(alloc, line.old.into())?;
    let new = number_text(alloc, line.new.into())?;
    let amount = amount_text(alloc, line.amount.into())?;
    let columns = AdjustingColumns {
        household: household.as_bytes(),
        month: month.as_bytes(),
        first: first.as_bytes(),
        last: last.as_bytes(),
        old: old.as_bytes(),
        new: new.as_bytes(),
        amount: amount.as_bytes(),
    };
    push_adjusting_columns(text, &columns)
}

#[derive(Drop)]
struct AdjustingColumns<'a> {
    household: &'a [u8],
    month: &'a [u8],
    first: &'a [u8],
    last: &'a [u8],
    old: &'a [u8],
    new: &'a [u8],
    amount: &'a [u8],
}

fn push_adjusting_columns(text: &mut Vec<u8>, columns: &AdjustingColumns) -> Result<(), NoMemory>
    ensures { let it = columns.now in OnOk result (text.new.items ≡ text.old.items ++ adjusting_columns it.household.now it.month.now it.first.now it.last.now it.old.now it.new.now it.amount.now) }
{
    push_right(text, 9, columns.household)?;
    push(text, b" ")?;
    push_left(text, 7, columns.month)?;
    push(text, b" ")?;
    push_left(text, 10, columns.first)?;
    push(text, b" ")?;
    push_left(text, 10, columns.last)?;
    push(text, b" ")?;
    push_right(text, 6, columns.old)?;
    push(text, b" ")?;
    push_right(text, 6, columns.new)?;
    push(text, b" ")?;
    push_right(text, 10, columns.amount)?;
    push(text, b"\n")
}
