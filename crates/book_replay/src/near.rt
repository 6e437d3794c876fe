//! Where the rows of an act have to stand, if tables are in order.

ghost use Rattle.std.specs.Prelude.{◌≡◌, true};
ghost use Rattle.book_search.specs.Order.{LinesNeverFall};
ghost use Rattle.office_step.specs.Valid.{records_by, lines_by};
ghost use Rattle.book_replay.specs.Order.{RecordsNeverFall};

use crate::stretch::records_of_act;
use book_search::lines_of_act;
use record_history::Record;
use voucher_core::Line;

/// Records among which those of the act are: these alone where the records stand in order, and else all.
pub fn records_near(records: &[Record], in_order: bool, n: u32) -> &[Record]
    requires { in_order ≡ true → RecordsNeverFall records.now }
    ensures among { records_by n result.now ≡ records_by n records.now }
    ensures alone { in_order ≡ true → result.now ≡ records_by n records.now }
{
    if in_order {
        records_of_act(records, n)
    } else {
        records
    }
}

/// Lines among which those of the act are: these alone where the lines stand in order, and else all.
pub fn lines_near(lines: &[Line], in_order: bool, n: u32) -> &[Line]
    requires { in_order ≡ true → LinesNeverFall lines.now }
    ensures among { lines_by n result.now ≡ lines_by n lines.now }
    ensures alone { in_order ≡ true → result.now ≡ lines_by n lines.now }
{
    if in_order {
        lines_of_act(lines, n)
    } else {
        lines
    }
}
