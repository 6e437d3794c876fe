//! The rows of an act, compared with those that stand in tables.

ghost use Rattle.std.specs.Prelude.{◌≡◌, false, slice_get};
ghost use Rattle.std.specs.Option.{option_map_or};
ghost use Rattle.std.specs.Cmp.Lexicographic.{pointwise};
ghost use Rattle.book_rows.specs.Same.{same_record, same_line};
ghost use Rattle.office_step.specs.Valid.{records_by, lines_by};

use book_rows::{same_line, same_record};
use record_history::Record;
use voucher_core::Line;

/// Whether the lines that name the act are these.
pub fn are_lines_by(own: &[Line], n: u32, lines: &[Line]) -> bool
    ensures { result ≡ pointwise same_line own.now (lines_by n lines.now) }
{
    let mut seen = 0;
    for line in lines {
        if line.act == n {
            if !is_line_at(own, seen, line) {
                return false;
            }
            seen += 1;
        }
    }
    seen == own.len()
}

/// Whether the records that name the act are these.
pub fn are_records_by(own: &[Record], n: u32, records: &[Record]) -> bool
    ensures { result ≡ pointwise same_record own.now (records_by n records.now) }
{
    let mut seen = 0;
    for made in records {
        if made.act == n {
            if !is_record_at(own, seen, made) {
                return false;
            }
            seen += 1;
        }
    }
    seen == own.len()
}

// Whether the line at that place is the same.
fn is_line_at(own: &[Line], place: usize, line: &Line) -> bool
    ensures { result ≡ option_map_or (λ first. same_line first line.now) (slice_get own.now place) false }
{
    match own.get(place) {
        Some(first) => same_line(first, line),
        None => false,
    }
}

// Whether the record at that place is the same.
fn is_record_at(own: &[Record], place: usize, made: &Record) -> bool
    ensures { result ≡ option_map_or (λ first. same_record first made.now) (slice_get own.now place) false }
{
    match own.get(place) {
        Some(first) => same_record(first, made),
        None => false,
    }
}
