//! Records, written as a text.

ghost use Rattle.std.specs.Prelude.{◌≡◌, ◌++◌, [], IfOk, OnOk, map};
ghost use Rattle.csv_records.specs.Records.{record_text};
ghost use Rattle.csv_records.specs.Between.{IsBetween, text_of};

use csv::Writer;
use plain_data::{NoMemory, Text};
use std::alloc::Global;

/// A writer of a text of records, of which there are none yet.
pub fn begin_text(alloc: Global) -> Writer<Vec<u8>>
    ensures between { IsBetween result }
    ensures text { text_of result ≡ [] }
{
    Writer::from_writer(Vec::new(alloc))
}

/// Writes one record after the others. All records of a text have the same number of fields.
#[tactic(auto, unfolding(crate::specs::Records::record_text))]
pub fn write_record(writer: &mut Writer<Vec<u8>>, fields: &[&[u8]]) -> Result<(), NoMemory>
    requires { IsBetween writer.old }
    ensures between { OnOk result (IsBetween writer.new) }
    ensures text { OnOk result (text_of writer.new ≡ text_of writer.old ++ record_text (map (λ field. field.now) fields.now)) }
{
    match writer.write_fields(fields) {
        Ok(()) => Ok(()),
        Err(_) => Err(NoMemory),
    }
}

/// The text that was written.
pub fn text_written(writer: Writer<Vec<u8>>) -> Result<Text, NoMemory>
    ensures { IfOk result (λ text. text ≡ text_of writer) }
{
    match writer.into_inner() {
        Ok(bytes) => Ok(Text::new(bytes)),
        Err(_) => Err(NoMemory),
    }
}
