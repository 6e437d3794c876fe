//! Records, read of a text.

ghost use Rattle.std.specs.Prelude.{◌≡◌, true, None, Some, IfOk, IfErr, map};
ghost use Rattle.csv.specs.Reading.{error_kind, stops_reader};
ghost use Rattle.csv.specs.Records.{fields_of};
ghost use Rattle.csv_records.specs.Begins.{Begins};
ghost use Rattle.csv_records.specs.Records.{are_fields, is_field, records_under};

use csv::{ByteRecord, ByteRecordsIntoIter, Error, ReaderBuilder};
use std::alloc::{AllocFailed, Global};

/// Why a text gives no records.
#[derive(Clone, Copy, Debug, PartialEq, Eq)]
pub enum RecordsFault {
    /// Its first record isn't the header.
    OtherHeader,
    NoMemory,
}

impl<T: Drop> From<AllocFailed<T>> for RecordsFault {
    ghost use Rattle.std.specs.Prelude.{◌≡◌};
    ghost use Rattle.csv_records.specs.declared.reading.RecordsFault.TheVariants as fault;

    ghost from_gives = { λ _ why. why ≡ fault.NoMemory };

    fn from(_error: AllocFailed<T>) -> RecordsFault {
        RecordsFault::NoMemory
    }
}

/// The records that stand under the header, whatever their number of fields and their bytes.
///
/// A blank line is no record. A record ends with LF, CR, CR LF or the text, and a quote counts at the start of a field.
pub fn records_under(
    alloc: Global,
    header: &[&[u8]],
    text: &[u8],
) -> Result<Vec<ByteRecord>, RecordsFault>
    ensures records { IfOk result (λ rows. records_under (map (λ name. name.now) header.now) text.now ≡ Some (map fields_of rows.items)) }
    ensures header { IfErr result (λ fault. fault ≡ RecordsFault.OtherHeader → records_under (map (λ name. name.now) header.now) text.now ≡ None) }
{
    let mut records = records_of(alloc, text);
    let first = match records.next() {
        Some(Ok(first)) => first,
        Some(Err(error)) => return Err(memory_fault(error)),
        None => return Err(RecordsFault::OtherHeader),
    };
    if !has_fields(&first, header) {
        return Err(RecordsFault::OtherHeader);
    }
    let mut rows = Vec::new(alloc);
    for record in records {
        match record {
            Ok(row) => rows.push(row)?,
            Err(error) => return Err(memory_fault(error)),
        }
    }
    Ok(rows)
}

/// A reader that takes the header for a record like any other, and records of any length.
fn records_of<'a>(alloc: Global, text: &'a [u8]) -> ByteRecordsIntoIter<&'a [u8]>
    ensures { Begins result text.now }
{
    ReaderBuilder::new()
        .has_headers(false)
        .flexible(true)
        .from_reader(alloc, text)
        .into_byte_records()
}

/// The fault of an error that ends the reading. A slice is always read, so the error is want of memory.
fn memory_fault(error: Error) -> RecordsFault
    requires { stops_reader (error_kind error) ≡ true }
    ensures { result ≡ RecordsFault.NoMemory }
{
    let _of_memory = error;
    RecordsFault::NoMemory
}

/// Whether these are the record's fields.
fn has_fields(read: &ByteRecord, fields: &[&[u8]]) -> bool
    ensures { result ≡ are_fields (fields_of read.now) (map (λ field. field.now) fields.now) }
{
    if read.len() != fields.len() {
        return false;
    }
    for (at, field) in fields.iter().enumerate() {
        if !is_field(read, at, field) {
            return false;
        }
    }
    true
}

/// Whether the record has that field at the place.
fn is_field(read: &ByteRecord, at: usize, field: &[u8]) -> bool
    ensures { result ≡ is_field (fields_of read.now) at field.now }
{
    match read.get(at) {
        Some(found) => found == field,
        None => false,
    }
}
