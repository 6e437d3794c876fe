//! All applicants of a text.

ghost use Rattle.std.specs.Prelude.{◌≡◌, ◌≤◌, true, None, Some, IfOk, IfErr, All, map};
ghost use Rattle.csv.specs.Records.{fields_of};
ghost use Rattle.applicant_rows.specs.Applicants.{applicants_in, row_from, header, is_fit_row};

use crate::fields::fields_of;
use crate::row::{ImportRow, row_of};
use csv::ByteRecord;
use csv_records::{RecordsFault, records_under};
use plain_data::NoMemory;
use std::alloc::Global;

/// Why a text gives no applicants.
#[derive(Clone, Copy, Debug, PartialEq, Eq)]
pub enum ImportFault {
    /// Its first record isn't the header.
    BadHeader,
    NoMemory,
}

impl From<NoMemory> for ImportFault {
    ghost use Rattle.std.specs.Prelude.{◌≡◌};
    ghost use Rattle.applicant_rows.specs.declared.import.ImportFault.TheVariants as fault;

    ghost from_gives = { λ _ why. why ≡ fault.NoMemory };

    fn from(_error: NoMemory) -> ImportFault {
        ImportFault::NoMemory
    }
}

/// The applicants that the text puts on the waiting list, for the clerk of that number.
pub fn applicants_of_csv(
    alloc: Global,
    bytes: &[u8],
    clerk: u32,
) -> Result<Vec<ImportRow>, ImportFault>
    ensures rows { IfOk result (λ rows. applicants_in clerk bytes.now ≡ Some rows.items) }
    ensures header { IfErr result (λ fault. fault ≡ ImportFault.BadHeader → applicants_in clerk bytes.now ≡ None) }
    // An office can be asked each applicant's call, where the number is a clerk's.
    ensures fit { 1 ≤ clerk → clerk ≤ 9999 → IfOk result (λ rows. All (λ row. is_fit_row row ≡ true) rows.items) }
{
    let header: [&[u8]; 7] = [
        b"request",
        b"name",
        b"size",
        b"persons",
        b"accessible",
        b"preferences",
        b"annual",
    ];
    match records_under(alloc, &header, bytes) {
        Ok(records) => Ok(rows_of(alloc, clerk, &records)?),
        Err(RecordsFault::OtherHeader) => Err(ImportFault::BadHeader),
        Err(RecordsFault::NoMemory) => Err(ImportFault::NoMemory),
    }
}

/// What each record is.
fn rows_of(alloc: Global, clerk: u32, records: &[ByteRecord]) -> Result<Vec<ImportRow>, NoMemory>
    ensures { IfOk result (λ rows. rows.items ≡ map (λ read. row_from clerk (fields_of read)) records.now) }
{
    let mut rows = Vec::new(alloc);
    for read in records {
        rows.push(record_row(alloc, clerk, read)?)?;
    }
    Ok(rows)
}

fn record_row(alloc: Global, clerk: u32, read: &ByteRecord) -> Result<ImportRow, NoMemory>
    ensures { IfOk result (λ row. row ≡ row_from clerk (fields_of read.now)) }
{
    match fields_of(read) {
        Some(fields) => row_of(alloc, clerk, &fields),
        None => Ok(ImportRow::Bad),
    }
}
