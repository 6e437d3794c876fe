//! Days that are due.

use days_core::{Day, day_of_text};
use due_dates::{Due, gross_day, overdue, rent_due_day, rightful_day};
use record_history::{Dates, History, Kind, Record};
use rent_table::RentTable;
use sample_office::{day, history_of, month, office_day, record, rent_row, rent_table, rents};
use std::alloc::Global;
use std::process::Abort;

/// The change, the notice, the days to report, whether the payment is higher, and the rightful day. The table is
/// this project's own rule; each day is counted on a calendar.
const INTERIMS: [(&str, &str, u32, bool, &str); 19] = [
    // In time and higher: 30 days after the notice is 19 April.
    ("2024-03-10", "2024-03-20", 30, true, "2024-05-01"),
    // In time and not higher: the month after the change.
    ("2024-01-20", "2024-01-25", 30, false, "2024-02-01"),
    // Told after 41 days, so late, and higher: the month after the change.
    ("2024-01-20", "2024-03-01", 30, true, "2024-02-01"),
    // 30 days after the notice is the first of a month, or the second.
    ("2024-03-01", "2024-03-02", 30, true, "2024-04-01"),
    ("2024-03-01", "2024-03-03", 30, true, "2024-05-01"),
    // The thirtieth day is in time, with 20 March ahead, and the next is late.
    ("2024-01-20", "2024-02-19", 30, true, "2024-04-01"),
    ("2024-01-20", "2024-02-20", 30, true, "2024-02-01"),
    // No days to report: the same day is in time, and 1 July late.
    ("2024-06-10", "2024-06-10", 0, false, "2024-07-01"),
    ("2024-06-10", "2024-07-01", 0, false, "2024-08-01"),
    // A year to report: 30 January is day 365, and 30 days later is 1 March.
    ("2024-01-31", "2025-01-30", 365, true, "2025-03-01"),
    ("2024-01-31", "2025-01-31", 365, true, "2024-02-01"),
    // All the days there are to report.
    ("2024-01-31", "2099-01-31", u32::MAX, false, "2024-02-01"),
    // From December into January.
    ("2024-12-05", "2024-12-10", 30, false, "2025-01-01"),
    ("2024-12-01", "2024-12-02", 30, true, "2025-01-01"),
    ("2024-12-01", "2024-12-03", 30, true, "2025-02-01"),
    // On the first of a month, and told before it came about.
    ("2024-05-01", "2024-05-01", 30, false, "2024-06-01"),
    ("2024-05-01", "2024-03-20", 30, true, "2024-05-01"),
    // The last day of the office.
    ("2099-12-31", "2099-12-31", 30, false, "2100-01-01"),
    ("2099-12-31", "2099-12-31", 30, true, "2100-02-01"),
];

/// The first day of an interim certification whose work is done on a day.
fn interim(event: &str, notice: &str, done: &str, higher: bool, report_days: u32) -> Day {
    let dates = Dates {
        event: office_day(event),
        notice: office_day(notice),
        done: office_day(done),
    };
    rightful_day(&Due::Interim {
        dates,
        higher,
        report_days,
    })
}

// Late and not higher: the month after the work was done.
const LATE_INTERIMS: [(&str, &str, &str, &str); 3] = [
    ("2024-01-20", "2024-03-01", "2024-03-05", "2024-04-01"),
    ("2024-01-20", "2024-03-01", "2024-04-30", "2024-05-01"),
    ("2024-01-20", "2024-03-01", "2024-12-01", "2025-01-01"),
];

#[test]
fn interims(rt: HostRuntime) {
    for (event, notice, report_days, higher, right) in &INTERIMS {
        let from = interim(*event, *notice, *notice, *higher, *report_days);
        assert!(rt;
            from == day(*right),
            "{event}, {notice}, {report_days}, {higher}"
        );
    }
    for (event, notice, done, right) in &LATE_INTERIMS {
        let from = interim(*event, *notice, *done, false, 30);
        assert!(rt; from == day(*right), "{done}");
    }
}

/// The opening of a household, the day of its last certification, and the rightful day of the next.
const ANNUALS: [(&str, &str, &str); 10] = [
    // The first of January 2024 isn't later than 16 January.
    ("2024-01-16", "2024-01-16", "2025-01-01"),
    // An anniversary on the very day isn't later.
    ("2024-01-01", "2024-01-01", "2025-01-01"),
    ("2024-01-16", "2025-01-01", "2026-01-01"),
    // The day before an anniversary, and the anniversary.
    ("2023-06-15", "2024-05-31", "2024-06-01"),
    ("2023-06-15", "2024-06-01", "2025-06-01"),
    // An opening on a leap day, and on the last day of a year.
    ("2024-02-29", "2024-02-29", "2025-02-01"),
    ("2020-12-31", "2023-12-31", "2024-12-01"),
    ("2020-01-31", "2023-12-31", "2024-01-01"),
    // An opening after the other day: an anniversary of any year.
    ("2024-08-20", "2023-03-15", "2023-08-01"),
    ("2090-12-31", "2099-12-31", "2100-12-01"),
];

#[test]
fn annuals(rt: HostRuntime) {
    for (opening, after, right) in &ANNUALS {
        let due = Due::Annual {
            opening: office_day(*opening),
            after: office_day(*after),
        };
        assert!(rt; rightful_day(&due) == day(*right), "{opening} {after}");
    }
}

const RESUMED: [(&str, &str); 4] = [
    ("2024-01-31", "2024-02-01"),
    ("2024-02-01", "2024-03-01"),
    ("2024-12-15", "2025-01-01"),
    ("2099-12-31", "2100-01-01"),
];

#[test]
fn resumed(rt: HostRuntime) {
    for (done, right) in &RESUMED {
        let due = Due::Resume {
            done: office_day(*done),
        };
        assert!(rt; rightful_day(&due) == day(*right), "{done}");
    }
}

// Months are counted, whatever the day in them.
const OVERDUE: [(&str, &str, bool); 9] = [
    ("2024-01-01", "2025-03", false),
    ("2024-01-01", "2025-04", true),
    ("2024-01-31", "2025-03", false),
    ("2024-01-31", "2025-04", true),
    ("2024-11-30", "2026-01", false),
    ("2024-11-30", "2026-02", true),
    ("2025-06-01", "2025-01", false),
    ("1880-01-01", "2199-12", true),
    ("2199-12-31", "2199-12", false),
];

#[test]
fn overdue_from_the_fifteenth_month(rt: HostRuntime) {
    for (base, closed, is_overdue) in &OVERDUE {
        assert!(rt;
            overdue(day(*base), month(*closed)) == *is_overdue,
            "{base} {closed}"
        );
    }
}

/// A record's kind, its first day, and the unit and the contract rent by which it certifies.
type Told = (Kind, &'static str, u32, u32);

fn told(number: u32, told: Told) -> Record {
    let (kind, from, unit, contract_rent) = told;
    let mut held = record(1, number, number, kind, day(from));
    held.unit = unit;
    held.rents = rents(contract_rent);
    held
}

/// The records of household 1, in the order of their numbers.
fn history(rt: &impl Abort, alloc: Global, first: Told, second: Option<Told>) -> History {
    let first = told(1, first);
    let history = match second {
        Some(second) => history_of(alloc, &[first, told(2, second)]),
        None => history_of(alloc, &[first]),
    };
    history.expect(rt, "a history")
}

/// A group, the first day and the contract rent of rents.
type Set = (u32, &'static str, u32);

/// Unit 1 of group 1, and rents in the order of the acts that set them.
fn table(rt: &impl Abort, alloc: Global, rows: [Set; 2]) -> RentTable {
    let [
        (group, from, contract_rent),
        (other, other_from, other_rent),
    ] = rows;
    let rows = [
        rent_row(group, day(from), 1, contract_rent),
        rent_row(other, day(other_from), 2, other_rent),
    ];
    rent_table(alloc, &rows).expect(rt, "a table")
}

// Household 1 is certified from January by 700 and 60 a month.
const STARTED: Told = (Kind::IC, "2024-01-01", 1, 700);

const JANUARY: Set = (1, "2024-01-01", 700);

const STALE: [([Set; 2], &str); 8] = [
    // The rents of another group rise, and then its own.
    ([JANUARY, (2, "2024-06-01", 720)], "none"),
    ([JANUARY, (1, "2024-06-01", 720)], "2024-06-01"),
    // Of two rows of one day the later act's counts.
    ([JANUARY, (1, "2024-01-01", 720)], "2024-01-01"),
    ([(1, "2024-01-01", 720), JANUARY], "none"),
    // Days without rents are passed over, and those before the household.
    (
        [(1, "2024-02-01", 720), (2, "2024-01-01", 720)],
        "2024-02-01",
    ),
    ([(1, "2023-02-01", 720), JANUARY], "none"),
    // The last day that an office has, and the next one.
    ([JANUARY, (1, "2099-12-31", 720)], "2099-12-31"),
    ([JANUARY, (1, "2100-01-01", 720)], "none"),
];

#[test]
fn a_gross_change_begins_where_rents_are_stale(rt: HostRuntime) {
    let history = history(&rt, rt.alloc(), STARTED, None);
    for (rows, right) in &STALE {
        let table = table(&rt, rt.alloc(), *rows);
        let found = gross_day(&history, &table, 1);
        assert!(rt; found == day_of_text(*right).ok(), "{right}");
    }
}

const ENDED: Told = (Kind::TM, "2024-03-01", 1, 0);

const CHANGES: [([Told; 2], &str); 7] = [
    // A termination or a move-out lasts until assistance resumes.
    ([STARTED, ENDED], "none"),
    ([STARTED, (Kind::MO, "2024-03-01", 1, 0)], "none"),
    ([ENDED, (Kind::IC, "2024-07-01", 1, 700)], "2024-07-01"),
    // The rents of March last too long, or come too early or too late.
    ([STARTED, (Kind::GR, "2024-03-01", 1, 710)], "2024-04-01"),
    ([STARTED, (Kind::IR, "2024-02-01", 1, 710)], "2024-02-01"),
    ([STARTED, (Kind::GR, "2024-03-02", 1, 710)], "2024-03-01"),
    // A unit that isn't there has no rents.
    ([STARTED, (Kind::UT, "2024-02-01", 2, 700)], "none"),
];

// The rents of group 1 are 700 from January, 710 in March alone, and 720 from June on.
#[test]
fn a_gross_change_passes_over_other_days(rt: HostRuntime) {
    let rows = [
        rent_row(1, day("2024-01-01"), 1, 700),
        rent_row(1, day("2024-06-01"), 2, 720),
        rent_row(1, day("2024-03-01"), 3, 710),
        rent_row(1, day("2024-04-01"), 4, 700),
    ];
    let table = rent_table(rt.alloc(), &rows).expect(&rt, "a table");
    for ([first, second], right) in &CHANGES {
        let history = history(&rt, rt.alloc(), *first, Some(*second));
        let found = gross_day(&history, &table, 1);
        assert!(rt; found == day_of_text(*right).ok(), "{right}");
        assert!(rt; gross_day(&history, &table, 2).is_none());
    }
}

const SPANS: [(&str, &str, &str); 6] = [
    ("2024-01-01", "2024-06-30", "2024-06-01"),
    ("2024-01-01", "2024-06-01", "2024-06-01"),
    ("2024-01-01", "2024-05-31", "none"),
    ("2024-07-15", "2024-07-31", "2024-07-15"),
    ("2024-07-15", "2024-07-15", "2024-07-15"),
    ("2024-07-15", "2024-07-14", "none"),
];

// Rents are stale from June on, and the span decides on which day that is seen first.
#[test]
fn rents_are_due_within_the_span(rt: HostRuntime) {
    let history = history(&rt, rt.alloc(), STARTED, None);
    let table = table(&rt, rt.alloc(), [JANUARY, (1, "2024-06-01", 720)]);
    for (first, last, right) in &SPANS {
        let due = rent_due_day(&history, &table, 1, day(*first), day(*last));
        assert!(rt; due == day_of_text(*right).ok(), "{first} {last}");
    }
}
