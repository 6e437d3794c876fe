//! Records and lines by their act.

ghost use Rattle.std.specs.Prelude.{◌≡◌, ◌==◌, ◌≤◌, true, false, nat_le, nat_lt, length, find, filter, drop, slice_get};
ghost use Rattle.std.specs.Option.{option_copied};
ghost use Rattle.std.specs.List.Sorted.{IsPartitionPoint};
ghost use Rattle.book_search.specs.Order.{RecordsRise, LinesNeverFall};

use record_history::Record;
use voucher_core::Line;

/// The record that the act made.
pub fn record_of_act(records: &[Record], n: u32) -> Option<&Record>
    requires { RecordsRise records.now }
    ensures { option_copied result ≡ find (λ r. r.act == n) records.now }
{
    let Some(made) = item_at(records, first_record(records, n)) else {
        return None;
    };
    if made.act == n { Some(made) } else { None }
}

/// The lines of the closing that the act made.
pub fn lines_of_act(lines: &[Line], n: u32) -> &[Line]
    requires { LinesNeverFall lines.now }
    ensures { result.now ≡ filter (λ line. line.act == n) lines.now }
{
    let rest = &lines[first_line(lines, n)..];
    &rest[..lines_up_to(rest, n)]
}

fn item_at<T>(items: &[T], at: usize) -> Option<&T>
    ensures { option_copied result ≡ slice_get items.now at }
{
    items.get(at)
}

// Where the records of that act and of later ones begin.
fn first_record(records: &[Record], n: u32) -> usize
    requires { RecordsRise records.now }
    ensures bound { result ≤ length records.now }
    ensures point { IsPartitionPoint (λ r. nat_lt r.act n ≡ true) (λ r. nat_lt r.act n ≡ false) records.now result }
{
    records.partition_point(|made| made.act < n)
}

// Where the lines of that act and of later ones begin.
fn first_line(lines: &[Line], n: u32) -> usize
    requires { LinesNeverFall lines.now }
    ensures bound { result ≤ length lines.now }
    ensures point { IsPartitionPoint (λ line. nat_lt line.act n ≡ true) (λ line. nat_lt line.act n ≡ false) lines.now result }
{
    lines.partition_point(|line| line.act < n)
}

// How many lines are of acts up to that one.
fn lines_up_to(lines: &[Line], n: u32) -> usize
    requires { LinesNeverFall lines.now }
    ensures bound { result ≤ length lines.now }
    ensures point { IsPartitionPoint (λ line. nat_le line.act n ≡ true) (λ line. nat_le line.act n ≡ false) lines.now result }
{
    lines.partition_point(|line| line.act <= n)
}
