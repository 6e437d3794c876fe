//! The seven fields of a record.

ghost use Rattle.std.specs.Prelude.{◌≡◌, ◌==◌, ◌<◌, false, length, Some, IfSome, IfNone};
ghost use Rattle.csv.specs.Records.{field_at, fields_of};
ghost use Rattle.applicant_rows.specs.Fields.{listed};

use csv::ByteRecord;

/// The fields of an applicant's record, in their order.
#[derive(Drop)]
pub struct Fields<'a> {
    pub request: &'a [u8],
    pub name: &'a [u8],
    pub size: &'a [u8],
    pub persons: &'a [u8],
    pub accessible: &'a [u8],
    pub preferences: &'a [u8],
    pub annual: &'a [u8],
}

/// The fields of a record that has seven.
pub fn fields_of(read: &ByteRecord) -> Option<Fields<'_>>
    ensures seven { IfSome result (λ fields. listed fields ≡ fields_of read.now) }
    ensures others { IfNone result ((length (fields_of read.now) == 7) ≡ false) }
{
    if read.len() != 7 {
        return None;
    }
    Some(Fields {
        request: field(read, 0),
        name: field(read, 1),
        size: field(read, 2),
        persons: field(read, 3),
        accessible: field(read, 4),
        preferences: field(read, 5),
        annual: field(read, 6),
    })
}

/// The field at a place that the record has.
fn field(read: &ByteRecord, at: usize) -> &[u8]
    requires { at < length (fields_of read.now) }
    ensures { Some result.now ≡ field_at (fields_of read.now) at }
{
    match read.get(at) {
        Some(field) => field,
        None => b"",
    }
}
