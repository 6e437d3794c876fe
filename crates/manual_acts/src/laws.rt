//! An office takes the acts that the manual tells, and comes to their books.

ghost use Rattle.manual_acts.specs.Days.{DaysAreDates};
ghost use Rattle.manual_acts.specs.{Page.PageIsTaken, Year.YearIsTaken};

use office_laws::{known_after_each_act, new_replies};

/// The days by which the books are told are those dates. It does nothing.
pub fn days_are_dates()
    ensures { DaysAreDates }
{}

/// An office takes each act of docs/ACTS.md: it appends the record or the lines that are told, and gives the reply that the
/// page gives. So it comes to their book, in which each kind of act occurs. It does nothing.
pub fn page_is_taken()
    ensures { PageIsTaken }
{
    known_after_each_act();
    new_replies();
}

/// And each of docs/FIRST-MONTH.md, with a closing a month for fourteen months. It does nothing.
pub fn year_is_taken()
    ensures { YearIsTaken }
{
    known_after_each_act();
    new_replies();
}
