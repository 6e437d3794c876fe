//! The least day on which rents are stale, without a look at each day.

ghost use Rattle.std.specs.Prelude.{◌≡◌, ◌≤◌, None, map, nat_lt, length, true, false};
ghost use Rattle.std.specs.List.Sorted.{IsPartitionPoint};
ghost use Rattle.record_history.specs.{Held.records_of, Ordered.StandInOrder};
ghost use Rattle.due_dates.specs.Stale.{rent_due_day_of, gross_day_of};
ghost use Rattle.due_dates.specs.Review.{is_due_on, with_day, with_days};

use crate::stale::is_rent_stale_on;
use days_core::{Day, LAST_OFFICE_DAY};
use record_history::{Dates, History, Record};
use rent_table::{RentRow, RentTable};

/// The least day through 2099-12-31 on which the household's record in force is neither a move-out nor a
/// termination and has other rents than its unit on that day (own rule). A day on which the unit isn't in
/// the table, or its group has no rents, is passed over.
pub fn gross_day(history: &History, table: &RentTable, household: u32) -> Option<Day>
    ensures { result ≡ gross_day_of (records_of history.now.households household) table.now.units table.now.rents }
{
    let first = Day::from_number(0).unwrap();
    let last = Day::from_number(LAST_OFFICE_DAY).unwrap();
    rent_due_day(history, table, household, first, last)
}

/// The least day from the first to the last on which the household's record in force is neither a move-out nor a
/// termination and has other rents than its unit on that day, as for `gross_day`.
pub fn rent_due_day(
    history: &History,
    table: &RentTable,
    household: u32,
    first: Day,
    last: Day,
) -> Option<Day>
    ensures { result ≡ rent_due_day_of (records_of history.now.households household) table.now.units table.now.rents first last }
{
    let review = RentReview {
        history,
        table,
        household,
        first,
        last,
    };
    review.least_day()
}

/// Whose rents are looked at, and from which day to which.
#[derive(Clone, Copy)]
struct RentReview<'a> {
    history: &'a History,
    table: &'a RentTable,
    household: u32,
    first: Day,
    last: Day,
}

impl RentReview<'_> {
    /// Rents become stale only where a record that counts or a row of rents begins, so no other day is looked at, and no
    /// record that begins before the span.
    fn least_day(&self) -> Option<Day>
        ensures { result ≡ rent_due_day_of (records_of self.now.history.now.households self.now.household) self.now.table.now.units self.now.table.now.rents self.now.first self.now.last }
    {
        let live = self.history.live_records(self.household);
        let early = how_many_before(live, self.first);
        let at_once = self.earlier(None, self.first);
        self.among_rows(self.among_records(&live[early..], at_once))
    }

    fn among_records(&self, records: &[Record], best: Option<Day>) -> Option<Day>
        ensures { result ≡ with_days (is_due_on self.now) best (map (λ r. r.from) records.now) }
    {
        let mut least = best;
        for held in records {
            least = self.earlier(least, held.from);
        }
        least
    }

    fn among_rows(&self, best: Option<Day>) -> Option<Day>
        ensures { result ≡ with_days (is_due_on self.now) best (map (λ row. row.from) self.now.table.now.rents) }
    {
        let rows = self.table.rent_rows();
        let mut least = best;
        for row in rows {
            least = self.earlier(least, row.from);
        }
        least
    }

    /// The earlier of the least day so far and another, if rents are stale on it.
    fn earlier(&self, best: Option<Day>, day: Day) -> Option<Day>
        ensures { result ≡ with_day (is_due_on self.now) best day }
    {
        let comes_first = match best {
            Some(found) => day < found,
            None => true,
        };
        if comes_first && self.is_due_on(day) {
            Some(day)
        } else {
            best
        }
    }

    fn is_due_on(&self, day: Day) -> bool
        ensures { result ≡ is_due_on self.now day }
    {
        self.first <= day
            && day <= self.last
            && is_rent_stale_on(self.history, self.table, self.household, day)
    }
}

/// How many of the records, in their order, begin before the day.
fn how_many_before(live: &[Record], day: Day) -> usize
    requires { StandInOrder live.now }
    ensures bound { result ≤ length live.now }
    ensures point { IsPartitionPoint (λ r. nat_lt r.from day ≡ true) (λ r. nat_lt r.from day ≡ false) live.now result }
{
    live.partition_point(|held| held.from < day)
}
