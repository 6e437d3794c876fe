//! Whether rows are the same.

ghost use Rattle.std.specs.Prelude.{◌≡◌, true};
ghost use Rattle.book_rows.specs.Same as row;

use crate::rows::ActRow;
use record_history::Record;
use voucher_core::Line;

/// Whether two rows of acts are the same.
pub fn same_act(first: &ActRow, other: &ActRow) -> bool
    ensures value { result ≡ row.same_act first.now other.now }
    ensures equal { result ≡ true → first.now ≡ other.now }
{
    is_same_act(first, other)
}

fn is_same_act(first: &ActRow, other: &ActRow) -> bool
    ensures { result ≡ row.same_act first.now other.now }
{
    first == other
}

/// Whether two records are the same.
pub fn same_record(first: &Record, other: &Record) -> bool
    ensures value { result ≡ row.same_record first.now other.now }
    ensures equal { result ≡ true → first.now ≡ other.now }
{
    is_same_record(first, other)
}

fn is_same_record(first: &Record, other: &Record) -> bool
    ensures { result ≡ row.same_record first.now other.now }
{
    first == other
}

/// Whether two lines are the same.
pub fn same_line(first: &Line, other: &Line) -> bool
    ensures value { result ≡ row.same_line first.now other.now }
    ensures equal { result ≡ true → first.now ≡ other.now }
{
    is_same_line(first, other)
}

fn is_same_line(first: &Line, other: &Line) -> bool
    ensures { result ≡ row.same_line first.now other.now }
{
    first == other
}
