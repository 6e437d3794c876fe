//! All lines as CSV.

ghost use Rattle.std.specs.Prelude.{◌≡◌, ◌++◌, IfOk, OnOk, string_bytes};
ghost use Rattle.std.specs.Fmt.{signed_decimal};
ghost use Rattle.csv_records.specs.Between.{IsBetween, text_of};
ghost use Rattle.line_records.specs.Export.{lines_text, line_record};

use csv::Writer;
use csv_records::{begin_text, text_written, write_record};
use days_core::{text_of_day, text_of_month};
use plain_data::{NoMemory, Text};
use std::alloc::Global;
use text_columns::number_text;
use voucher_core::Line;

/// The lines of a book as CSV, under a header.
pub fn lines_csv(alloc: Global, lines: &[Line]) -> Result<Text, NoMemory>
    ensures { IfOk result (λ text. text ≡ lines_text lines.now) }
{
    let mut writer = begin_text(alloc);
    let header: [&[u8]; 8] = [
        b"closing",
        b"household",
        b"for_month",
        b"first",
        b"last",
        b"old",
        b"new",
        b"amount",
    ];
    write_record(&mut writer, &header)?;
    for line in lines {
        write_line(alloc, &mut writer, line)?;
    }
    text_written(writer)
}

fn write_line(alloc: Global, writer: &mut Writer<Vec<u8>>, line: &Line) -> Result<(), NoMemory>
    requires { IsBetween writer.old }
    ensures between { OnOk result (IsBetween writer.new) }
    ensures text { OnOk result (text_of writer.new ≡ text_of writer.old ++ line_record line.now) }
{
    let closing = text_of_month(alloc, line.month)?;
    let household = number_text(alloc, line.household.into())?;
    let for_month = text_of_month(alloc, line.for_month)?;
    let first = text_of_day(alloc, line.first)?;
    let last = text_of_day(alloc, line.last)?;
    let old = number_text(alloc, line.old.into())?;
    let new = number_text(alloc, line.new.into())?;
    let amount = amount_text(alloc, line.amount)?;
    let fields: [&[u8]; 8] = [
        closing.as_bytes(),
        household.as_bytes(),
        for_month.as_bytes(),
        first.as_bytes(),
        last.as_bytes(),
        old.as_bytes(),
        new.as_bytes(),
        amount.as_bytes(),
    ];
    write_record(writer, &fields)
}

fn amount_text(alloc: Global, amount: i32) -> Result<String, NoMemory>
    ensures { IfOk result (λ text. string_bytes text ≡ signed_decimal amount) }
{
    Ok(format!(in alloc; "{amount}")?)
}
