//! The rules of days, each as a law in plain facts.

ghost use Rattle.std.specs.Prelude.{◌≡◌, ◌↔◌, ℕ, ◌+◌, ◌<◌, ◌≤◌, true, false, List};
ghost use Rattle.days_core.specs.{Calendar.month_of, Calendar.month_in_year, OfficeDays.last_office_day};
ghost use Rattle.record_history.specs.declared.records.Dates.{Dates};
ghost use Rattle.record_history.specs.declared.records.Record.{Record};
ghost use Rattle.rent_table.specs.declared.rows.Unit.{Unit as UnitRow};
ghost use Rattle.rent_table.specs.declared.rows.RentRow.{RentRow};
ghost use Rattle.due_dates.specs.declared.due.Due.TheVariants as due;
ghost use Rattle.due_dates.specs.Least.{IsLeast};
ghost use Rattle.due_dates.specs.Overdue.{is_overdue};
ghost use Rattle.due_dates.specs.Stale.{is_rent_stale_on, rent_due_day_of, gross_day_of};
ghost use Rattle.due_dates.specs.Rightful.{IsInRange, rightful_day_of};
ghost use Rattle.due_dates.specs.Law.{IsMonthAfter, IsFirstStart, IsNextAnniversary, IsByOtherRents};

/// The table of interim certifications, a row a clause. It does nothing.
pub fn interims_follow_their_table()
    ensures in_time_and_higher { (dates : Dates) (report_days : ℕ) → IsInRange (due.Interim dates true report_days) → dates.notice ≤ dates.event + report_days →
        IsFirstStart (dates.notice + 30) (rightful_day_of (due.Interim dates true report_days)) }
    ensures in_time_and_not_higher { (dates : Dates) (report_days : ℕ) → IsInRange (due.Interim dates false report_days) → dates.notice ≤ dates.event + report_days →
        IsMonthAfter dates.event (rightful_day_of (due.Interim dates false report_days)) }
    ensures late_and_higher { (dates : Dates) (report_days : ℕ) → IsInRange (due.Interim dates true report_days) → dates.event + report_days < dates.notice →
        IsMonthAfter dates.event (rightful_day_of (due.Interim dates true report_days)) }
    ensures late_and_not_higher { (dates : Dates) (report_days : ℕ) → IsInRange (due.Interim dates false report_days) → dates.event + report_days < dates.notice →
        IsMonthAfter dates.done (rightful_day_of (due.Interim dates false report_days)) }
{}

/// An annual recertification begins with the least anniversary later than the last full certification. In its
/// month and in the next two the household isn't overdue yet. It does nothing.
pub fn annuals_begin_with_the_next_anniversary()
    ensures anniversary { (opening after : ℕ) → IsInRange (due.Annual opening after) → IsNextAnniversary opening after (rightful_day_of (due.Annual opening after)) }
    ensures not_overdue { (opening after : ℕ) → IsInRange (due.Annual opening after) → is_overdue after (month_of (rightful_day_of (due.Annual opening after)) + 2) ≡ false }
{}

/// By its last full certification a household isn't overdue in the month of the rightful day of its next annual, nor in
/// the two after it; from the third after it on it is, where that certification began in the month of the anniversary.
/// By an annual that takes effect on its rightful day it isn't overdue in that month, nor in the fourteen after it, and
/// then it is. It does nothing.
pub fn annuals_leave_three_months()
    ensures before { (opening after month : ℕ) → IsInRange (due.Annual opening after) →
        month ≤ month_of (rightful_day_of (due.Annual opening after)) + 2 → is_overdue after month ≡ false }
    ensures from_the_third { (opening after month : ℕ) → IsInRange (due.Annual opening after) → month_in_year after ≡ month_in_year opening →
        month_of (rightful_day_of (due.Annual opening after)) + 3 ≤ month → is_overdue after month ≡ true }
    ensures renewed { (opening after month : ℕ) → IsInRange (due.Annual opening after) →
        month ≤ month_of (rightful_day_of (due.Annual opening after)) + 14 → is_overdue (rightful_day_of (due.Annual opening after)) month ≡ false }
    ensures renewed_no_longer { (opening after month : ℕ) → IsInRange (due.Annual opening after) →
        month_of (rightful_day_of (due.Annual opening after)) + 15 ≤ month → is_overdue (rightful_day_of (due.Annual opening after)) month ≡ true }
{}

/// Assistance resumes with the month after the work was done. It does nothing.
pub fn assistance_resumes_with_a_month()
    ensures { (done : ℕ) → IsInRange (due.Resume done) → IsMonthAfter done (rightful_day_of (due.Resume done)) }
{}

/// A gross rent change begins with the least day on which the household's rents are stale, and there is no day
/// for it only where they never are. It does nothing.
pub fn gross_changes_begin_when_rents_are_stale()
    ensures gross_day { (records : List Record) (units : List UnitRow) (rows : List RentRow) →
        IsLeast (is_rent_stale_on records units rows) 0 last_office_day (gross_day_of records units rows) }
    ensures rent_due_day { (records : List Record) (units : List UnitRow) (rows : List RentRow) (first last : ℕ) →
        IsLeast (is_rent_stale_on records units rows) first last (rent_due_day_of records units rows first last) }
{}

/// Rents are stale on a day exactly where the record in force, neither a move-out nor a termination, has other rents than
/// its unit has then. It does nothing.
pub fn rents_are_stale_where_others_stand()
    ensures { (records : List Record) (units : List UnitRow) (rows : List RentRow) (day : ℕ) →
        ((is_rent_stale_on records units rows day ≡ true) ↔ IsByOtherRents records units rows day) }
{}
