//! Closings and their lines.

use days_core::{FIRST_OFFICE_MONTH, LAST_OFFICE_MONTH};
use record_history::{History, Kind, MOST_ACTS, MOST_LINES, Record};
use sample_office::{day, hold, month, record};
use std::alloc::Global;
use std::process::Abort;
use voucher_core::{Closing, Line, LineBook, close_lines};

/// Household, number, act, kind, first day, what it corrects, assistance.
type Held = (u32, u32, u32, Kind, &'static str, u32, u32);

fn held(held: Held) -> Record {
    let (household, number, act, kind, from, corrects, assistance) = held;
    let mut made = record(household, number, act, kind, day(from));
    made.corrects = corrects;
    made.assistance = assistance;
    made
}

/// The first month of the office, the month that is closed, the act of the closing before, or 0, and that of this one.
type Closes = (&'static str, &'static str, u32, u32);

fn close(rt: &impl Abort, alloc: Global, history: &History, row: Closes) -> Vec<Line> {
    let (first_month, closed, last_close, act) = row;
    let closing = Closing {
        closed: month(closed),
        first_month: month(first_month),
        last_close,
        act,
    };
    assert!(rt; last_close <= act && history.households() <= MOST_ACTS);
    assert!(rt;
        FIRST_OFFICE_MONTH <= closing.first_month.number()
            && closing.closed.number() <= LAST_OFFICE_MONTH
    );
    close_lines(alloc, history, &closing).expect(rt, "memory")
}

/// Household, month, first and last day, old and new record, amount.
type Told = (u32, &'static str, &'static str, &'static str, u32, u32, i32);

/// The line of that place of a closing.
fn line(act: u32, place: u32, closed: &str, told: Told) -> Line {
    let (household, for_month, first, last, old, new, amount) = told;
    Line {
        act,
        place,
        month: month(closed),
        household,
        for_month: month(for_month),
        first: day(first),
        last: day(last),
        old,
        new,
        amount,
    }
}

/// Closes a month, and compares each of the lines that come of it.
fn closes(
    rt: &impl Abort,
    alloc: Global,
    history: &History,
    row: Closes,
    wanted: &[Told],
) -> Vec<Line> {
    let (_, closed, _, act) = row;
    let lines = close(rt, alloc, history, row);
    assert!(rt; lines.len() == wanted.len());
    for index in 0..lines.len() {
        let place = lines[index].place;
        assert!(rt; place as usize == index + 1);
        assert!(rt;
            lines[index] == line(act, place, closed, wanted[index]),
            "{closed} {place}"
        );
    }
    lines
}

fn keep(rt: &impl Abort, book: &mut LineBook, lines: &[Line]) {
    for line in lines {
        assert!(rt; book.lines().len() < MOST_LINES as usize);
        book.reserve(1).expect(rt, "memory");
        book.push(*line);
    }
}

/// Closes a month, compares the lines, and keeps them.
fn closes_and_keeps(
    rt: &impl Abort,
    alloc: Global,
    history: &History,
    book: &mut LineBook,
    row: Closes,
    wanted: &[Told],
) {
    let lines = closes(rt, alloc, history, row, wanted);
    keep(rt, book, &lines);
}

// By record 1 of act 4, 548 a month is paid for January to May 2024, in closings of the acts 5 to 9.
const CERTIFIED: Held = (1, 1, 4, Kind::IC, "2024-01-01", 0, 548);

const PAID: [(Closes, [Told; 1]); 5] = [
    (
        ("2024-01", "2024-01", 0, 5),
        [(1, "2024-01", "2024-01-01", "2024-01-31", 0, 1, 548)],
    ),
    (
        ("2024-01", "2024-02", 5, 6),
        [(1, "2024-02", "2024-02-01", "2024-02-29", 0, 1, 548)],
    ),
    (
        ("2024-01", "2024-03", 6, 7),
        [(1, "2024-03", "2024-03-01", "2024-03-31", 0, 1, 548)],
    ),
    (
        ("2024-01", "2024-04", 7, 8),
        [(1, "2024-04", "2024-04-01", "2024-04-30", 0, 1, 548)],
    ),
    (
        ("2024-01", "2024-05", 8, 9),
        [(1, "2024-05", "2024-05-01", "2024-05-31", 0, 1, 548)],
    ),
];

fn pay_until_may(rt: &impl Abort, alloc: Global, history: &mut History, book: &mut LineBook) {
    assert!(rt; hold(history, held(CERTIFIED)));
    for (row, wanted) in &PAID {
        closes_and_keeps(rt, alloc, history, book, *row, wanted);
    }
}

// An interim of act 10 makes it 500 from 1 March on, and act 12 withdraws it.
const INTERIM: Held = (1, 2, 10, Kind::IR, "2024-03-01", 0, 500);

const WITHDRAWAL: Held = (1, 3, 12, Kind::WD, "2024-03-01", 2, 0);

const ADJUSTED: [Told; 4] = [
    (1, "2024-03", "2024-03-01", "2024-03-31", 1, 2, -48),
    (1, "2024-04", "2024-04-01", "2024-04-30", 1, 2, -48),
    (1, "2024-05", "2024-05-01", "2024-05-31", 1, 2, -48),
    (1, "2024-06", "2024-06-01", "2024-06-30", 0, 2, 500),
];

const RESTORED: [Told; 5] = [
    (1, "2024-03", "2024-03-01", "2024-03-31", 2, 1, 48),
    (1, "2024-04", "2024-04-01", "2024-04-30", 2, 1, 48),
    (1, "2024-05", "2024-05-01", "2024-05-31", 2, 1, 48),
    (1, "2024-06", "2024-06-01", "2024-06-30", 2, 1, 48),
    (1, "2024-07", "2024-07-01", "2024-07-31", 0, 1, 548),
];

const PAID_BY_JULY: [(&str, u32, i64); 6] = [
    ("2023-12", 1, 0),
    ("2024-01", 1, 548),
    ("2024-03", 1, 548),
    ("2024-07", 1, 548),
    ("2024-07", 2, 0),
    ("2024-08", 1, 0),
];

#[test]
fn an_interim_adjusts_and_its_withdrawal_restores(rt: HostRuntime) {
    let alloc = rt.alloc();
    let mut history = History::new(alloc).expect(&rt, "memory");
    let mut book = LineBook::new(alloc).expect(&rt, "memory");
    pay_until_may(&rt, alloc, &mut history, &mut book);
    assert!(rt; hold(&mut history, held(INTERIM)));
    let june = ("2024-01", "2024-06", 9, 11);
    closes_and_keeps(&rt, alloc, &history, &mut book, june, &ADJUSTED);
    assert!(rt; hold(&mut history, held(WITHDRAWAL)));
    let july = ("2024-01", "2024-07", 11, 13);
    closes_and_keeps(&rt, alloc, &history, &mut book, july, &RESTORED);
    has_paid(&rt, &book, &PAID_BY_JULY);
}

/// Compares what was paid for a month for a household.
fn has_paid(rt: &impl Abort, book: &LineBook, wanted: &[(&str, u32, i64)]) {
    for (paid_for, household, amount) in wanted {
        let paid = book.paid(*household, month(*paid_for));
        assert!(rt; paid == *amount, "{paid_for} {household}");
    }
}

// A move-out of act 10 whose last assisted day is 10 April takes back 365 of 548 for April, and May whole.
const MOVE_OUT: Held = (1, 2, 10, Kind::MO, "2024-04-11", 0, 0);

const TAKEN_BACK: [Told; 2] = [
    (1, "2024-04", "2024-04-11", "2024-04-30", 1, 2, -365),
    (1, "2024-05", "2024-05-01", "2024-05-31", 1, 2, -548),
];

const PAID_BY_JUNE: [(&str, u32, i64); 3] = [
    ("2024-04", 1, 183),
    ("2024-05", 1, 0),
    ("2024-06", 1, 0),
];

#[test]
fn a_move_out_in_the_past_takes_back(rt: HostRuntime) {
    let alloc = rt.alloc();
    let mut history = History::new(alloc).expect(&rt, "memory");
    let mut book = LineBook::new(alloc).expect(&rt, "memory");
    pay_until_may(&rt, alloc, &mut history, &mut book);
    assert!(rt; hold(&mut history, held(MOVE_OUT)));
    let june = ("2024-01", "2024-06", 9, 11);
    closes_and_keeps(&rt, alloc, &history, &mut book, june, &TAKEN_BACK);
    has_paid(&rt, &book, &PAID_BY_JUNE);
}

// February 2024 has 29 days. Household 1 has records of equal amounts, household 2 has a day of nothing between.
const FEBRUARY: [Held; 7] = [
    (1, 1, 1, Kind::IC, "2024-02-01", 0, 548),
    (2, 1, 2, Kind::IC, "2024-02-01", 0, 300),
    (1, 2, 3, Kind::GR, "2024-02-16", 0, 548),
    (2, 2, 4, Kind::IR, "2024-02-10", 0, 0),
    (2, 3, 5, Kind::IR, "2024-02-11", 0, 300),
    (3, 1, 6, Kind::IC, "2024-02-29", 0, 548),
    (4, 1, 7, Kind::IC, "2024-03-01", 0, 548),
];

const FEBRUARY_LINES: [Told; 5] = [
    (1, "2024-02", "2024-02-01", "2024-02-15", 0, 1, 283), // 283.45
    (1, "2024-02", "2024-02-16", "2024-02-29", 0, 2, 265), // what is left of 548
    (2, "2024-02", "2024-02-01", "2024-02-09", 0, 1, 93), // 93.10
    (2, "2024-02", "2024-02-11", "2024-02-29", 0, 3, 197), // 300 less 103.45
    (3, "2024-02", "2024-02-29", "2024-02-29", 0, 1, 19), // 548 less 529.10
];

// Another record for the same amount makes no line, and one for another amount does.
const MARCH: [Held; 2] = [
    (3, 2, 9, Kind::IC, "2024-02-29", 1, 548),
    (1, 3, 10, Kind::IR, "2024-02-16", 2, 519),
];

const MARCH_LINES: [Told; 5] = [
    (1, "2024-02", "2024-02-16", "2024-02-29", 2, 3, -14), // 519 less 268.45, so 251, less 265
    (1, "2024-03", "2024-03-01", "2024-03-31", 0, 3, 519),
    (2, "2024-03", "2024-03-01", "2024-03-31", 0, 3, 300),
    (3, "2024-03", "2024-03-01", "2024-03-31", 0, 2, 548),
    (4, "2024-03", "2024-03-01", "2024-03-31", 0, 1, 548),
];

fn hold_all(rt: &impl Abort, history: &mut History, records: &[Held]) {
    for told in records {
        assert!(rt; hold(history, held(*told)));
    }
}

#[test]
fn runs_of_a_month(rt: HostRuntime) {
    let alloc = rt.alloc();
    let mut history = History::new(alloc).expect(&rt, "memory");
    hold_all(&rt, &mut history, &FEBRUARY);
    let february = ("2024-02", "2024-02", 0, 8);
    closes(&rt, alloc, &history, february, &FEBRUARY_LINES);
    hold_all(&rt, &mut history, &MARCH);
    let march = ("2024-02", "2024-03", 8, 11);
    closes(&rt, alloc, &history, march, &MARCH_LINES);
}
