//! Each refusal, by what the book and the clerk say.

use days_core::{Day, Month};
use office_refusals::{
    act_day, annual_right, corrected_right, household_rent_due, interim_right, lines_full,
    next_to_close, no_household, overdue, resume_right,
};
use office_step::{Named, Refusal, Rightful};
use record_history::{Dates, History, Kind};
use rent_table::RentTable;
use sample_office::{day, history_of, month, office_day, record, rent_row, rent_table};
use std::alloc::Global;
use std::process::Abort;

fn assert_refused(rt: &impl Abort, found: Option<Refusal>, wanted: Option<Refusal>) {
    assert!(rt; found == wanted, "{found:?} for {wanted:?}");
}

fn assert_day(rt: &impl Abort, found: Option<Day>, wanted: &str) {
    assert!(rt; found == Some(day(wanted)), "{found:?} for {wanted}");
}

#[test]
fn what_the_book_says(rt: HostRuntime) {
    // The third line doesn't fit where two do.
    let full = Refusal::LinesFull { lines: 2, more: 1 };
    assert_refused(&rt, lines_full(2, 1, 2), Some(full));
    assert_refused(&rt, lines_full(1, 1, 2), None);
}

#[test]
fn what_the_clerk_says(rt: HostRuntime) {
    assert_refused(&rt, no_household(6, 7), Some(nobody(7)));
    assert_refused(&rt, no_household(7, 7), None);
    assert_refused(&rt, no_household(7, 0), Some(nobody(0)));
}

fn nobody(id: u32) -> Refusal {
    Refusal::NoSuch {
        what: Named::Household,
        id,
    }
}

const ACT_DAYS: [(&str, &str, &str); 4] = [
    ("1880-01-01", "1999-12-31", "2000-01-01"),
    ("1880-01-01", "2024-01-01", "2024-01-01"),
    ("2024-05-20", "2024-01-01", "2024-05-20"),
    ("2024-05-20", "2150-01-01", "2099-12-31"),
];

// The act's day lies in 2000 to 2099 and never falls.
#[test]
fn days_of_acts_never_fall(rt: HostRuntime) {
    for (before, clock, right) in &ACT_DAYS {
        assert_day(&rt, Some(act_day(day(*before), day(*clock))), *right);
    }
}

#[test]
fn months_follow_the_last_that_was_closed(rt: HostRuntime) {
    assert_next(&rt, None, Some(month("2024-01")));
    assert_next(&rt, Some(month("2024-05")), Some(month("2024-06")));
    assert_next(&rt, Some(month("2099-12")), None);
}

/// Tells what month is closed after this one, by a plan from January 2024 on.
fn assert_next(rt: &impl Abort, closed: Option<Month>, next: Option<Month>) {
    let found = next_to_close(month("2024-01"), closed);
    assert!(rt; found == next, "{found:?} for {next:?}");
}

/// A household certified on the first of 2024, and then every year anew for so many years.
fn certified(rt: &impl Abort, alloc: Global, years: usize) -> History {
    let records = [
        record(1, 1, 1, Kind::IC, day("2024-01-01")),
        record(1, 2, 2, Kind::AR, day("2025-01-01")),
        record(1, 3, 3, Kind::AR, day("2026-01-01")),
    ];
    assert!(rt; years < 3);
    history_of(alloc, &records[..=years]).expect(rt, "a history")
}

#[test]
fn certifications_have_their_days(rt: HostRuntime) {
    let history = certified(&rt, rt.alloc(), 2);
    assert_annuals(&rt, &history);
    assert_corrections(&rt, &history);
}

// Certified on 2024-01-01 and again on the first of 2025 and 2026: the next annual is of 2027.
fn assert_annuals(rt: &impl Abort, history: &History) {
    assert_day(rt, annual_right(history, 1), "2027-01-01");
    assert!(rt; annual_right(history, 2).is_none());
}

fn assert_corrections(rt: &impl Abort, history: &History) {
    let initial = corrected_on(history, 1, Kind::IC, "2024-01-01");
    assert!(rt; initial == Rightful::Any, "{initial:?}");
    let annual = corrected_on(history, 2, Kind::AR, "2025-01-01");
    assert!(rt;
        annual == Rightful::Only(Some(day("2025-01-01"))),
        "{annual:?}"
    );
}

/// From when on the record may be corrected.
fn corrected_on(history: &History, number: u32, kind: Kind, from: &str) -> Rightful {
    let target = record(1, number, number, kind, day(from));
    corrected_right(history, 1, &target, 260, 30)
}

// An interim told in time, with a payment above 212, begins with the first month 30 days after 20 March: in May.
#[test]
fn a_change_is_told(rt: HostRuntime) {
    let history = certified(&rt, rt.alloc(), 0);
    assert_interims(&rt, &history);
}

fn assert_interims(rt: &impl Abort, history: &History) {
    let higher = interim_from(history, 260);
    assert!(rt;
        higher == Rightful::Only(Some(day("2024-05-01"))),
        "{higher:?}"
    );
    let same = interim_from(history, 212);
    assert!(rt; same == Rightful::Only(Some(day("2024-04-01"))), "{same:?}");
}

fn interim_from(history: &History, payment: u32) -> Rightful {
    let told = Dates {
        event: office_day("2024-03-10"),
        notice: office_day("2024-03-20"),
        done: office_day("2024-03-25"),
    };
    interim_right(history, 1, told, payment, 30)
}

#[test]
fn assistance_begins_again(rt: HostRuntime) {
    let right = resume_right(office_day("2024-03-25"));
    assert_day(&rt, Some(right), "2024-04-01");
}

// January 2024 is fifteen months before April 2025.
#[test]
fn a_household_is_overdue(rt: HostRuntime) {
    let history = certified(&rt, rt.alloc(), 0);
    assert_overdue(&rt, &history);
}

fn assert_overdue(rt: &impl Abort, history: &History) {
    let late = Refusal::Overdue {
        household: 1,
        anniversary: day("2025-01-01"),
    };
    assert_refused(rt, overdue_in(rt, history, "2023-12"), None);
    assert_refused(rt, overdue_in(rt, history, "2025-03"), None);
    assert_refused(rt, overdue_in(rt, history, "2025-04"), Some(late));
}

fn overdue_in(rt: &impl Abort, history: &History, text: &str) -> Option<Refusal> {
    let closed = month(text);
    assert!(rt; closed.number() <= 2_639);
    overdue(history, closed)
}

fn with_rents_of_june(rt: &impl Abort, alloc: Global) -> RentTable {
    let rows = [rent_row(1, day("2024-06-01"), 10, 720)];
    rent_table(alloc, &rows).expect(rt, "a table")
}

// From 1 June 2024 on the unit's rents are others than the record's.
#[test]
fn rents_are_due(rt: HostRuntime) {
    let history = certified(&rt, rt.alloc(), 0);
    let table = with_rents_of_june(&rt, rt.alloc());
    assert_rents_due(&rt, &history, &table);
}

fn assert_rents_due(rt: &impl Abort, history: &History, table: &RentTable) {
    let due = Refusal::RentDue {
        household: 1,
        target: 1,
        day: day("2024-06-01"),
    };
    let first = day("2024-01-01");
    let may = household_rent_due(history, table, first, day("2024-05-31"), 1);
    assert_refused(rt, may, None);
    let june = household_rent_due(history, table, first, day("2024-06-30"), 1);
    assert_refused(rt, june, Some(due));
}
