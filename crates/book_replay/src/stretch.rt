//! The rows of one act, found by halves in rows that are in order.

ghost use Rattle.std.specs.Prelude.{◌≡◌, ◌≤◌, true, false, nat_le, nat_lt, length, filter};
ghost use Rattle.std.specs.List.Sorted.{IsPartitionPoint};
ghost use Rattle.office_step.specs.Valid.{records_by};
ghost use Rattle.book_replay.specs.Order.{RecordsNeverFall};

use record_history::Record;

/// The records that the act made, of records that stand in the order of their acts.
pub fn records_of_act(records: &[Record], n: u32) -> &[Record]
    requires { RecordsNeverFall records.now }
    ensures { result.now ≡ records_by n records.now }
{
    let rest = &records[first_record(records, n)..];
    &rest[..records_up_to(rest, n)]
}

// Where the records of that act and of later ones begin.
fn first_record(records: &[Record], n: u32) -> usize
    requires { RecordsNeverFall records.now }
    ensures bound { result ≤ length records.now }
    ensures point { IsPartitionPoint (λ r. nat_lt r.act n ≡ true) (λ r. nat_lt r.act n ≡ false) records.now result }
{
    records.partition_point(|made| made.act < n)
}

// How many records are of acts up to that one.
fn records_up_to(records: &[Record], n: u32) -> usize
    requires { RecordsNeverFall records.now }
    ensures bound { result ≤ length records.now }
    ensures point { IsPartitionPoint (λ r. nat_le r.act n ≡ true) (λ r. nat_le r.act n ≡ false) records.now result }
{
    records.partition_point(|made| made.act <= n)
}
