//! Order of records, and who has a unit.

ghost use Rattle.std.specs.Prelude.{◌≡◌, ◌+◌};
ghost use Rattle.record_history.specs.Held.{records_of};
ghost use Rattle.tenancy_rules.specs.Changed.{AddsNext};

use days_core::{Day, LAST_OFFICE_DAY};
use record_history::{History, Kind, Record};
use sample_office::{day, hold, record};
use std::alloc::Global;
use std::process::Abort;
use tenancy_rules::{Change, double_use, order_fault};

/// A record of which only these tell: its kind, the number of its first day, and its unit.
type Row = (Kind, u32, u32);

/// A row of a household, and the number of the record that it corrects, or 0.
type Told = (u32, Row, u32);

fn told(rt: &impl Abort, household: u32, number: u32, row: Row) -> Record
    ensures household { result.household ≡ household }
    ensures number { result.number ≡ number }
{
    let (kind, from, unit) = row;
    let from = Day::from_number(from).expect(rt, "a day");
    let mut held = record(household, number, number, kind, from);
    held.unit = unit;
    held
}

/// A history of these rows, in the order of the acts that made them.
fn history(rt: &impl Abort, alloc: Global, rows: &[Told]) -> History {
    let mut history = History::new(alloc).expect(rt, "memory");
    let mut act = 0;
    for (household, row, corrects) in rows {
        act = next(rt, act);
        let number = next(rt, history.newest(*household));
        let mut held = told(rt, *household, number, *row);
        held.act = act;
        held.corrects = *corrects;
        assert!(rt; hold(&mut history, held));
    }
    history
}

fn next(rt: &impl Abort, number: u32) -> u32
    ensures { result ≡ number + 1 }
{
    assert!(rt; number < 100);
    number + 1
}

/// A change of the household's records: the number of the one that is dropped, or 0, and a next one, if any.
fn change(rt: &impl Abort, history: &History, household: u32, drop: u32, add: Option<Row>) -> Change
    ensures { AddsNext (records_of history.now.households household) household result }
{
    let number = next(rt, history.newest(household));
    let add = match add {
        Some(row) => Some(told(rt, household, number, row)),
        None => None,
    };
    Change { drop, add }
}

/// The number of the first record out of order among these of household 1, once one is dropped and another added.
fn fault(rt: &impl Abort, alloc: Global, rows: &[Row], drop: u32, add: Option<Row>) -> u32 {
    let history = history_of_one(rt, alloc, rows);
    fault_in(rt, &history, drop, add)
}

fn history_of_one(rt: &impl Abort, alloc: Global, rows: &[Row]) -> History {
    let mut history = History::new(alloc).expect(rt, "memory");
    for row in rows {
        let number = next(rt, history.newest(1));
        assert!(rt; hold(&mut history, told(rt, 1, number, *row)));
    }
    history
}

fn fault_in(rt: &impl Abort, history: &History, drop: u32, add: Option<Row>) -> u32 {
    match order_fault(history, 1, &change(rt, history, 1, drop, add)) {
        Some(number) => number,
        None => 0,
    }
}

const ORDERS: [(&[Row], u32); 18] = [
    // The first is a move-in or an initial certification.
    (&[], 0),
    (&[(Kind::MI, 10, 1)], 0),
    (&[(Kind::IC, 10, 1), (Kind::AR, 20, 1)], 0),
    (&[(Kind::AR, 10, 1)], 1),
    // No other is a move-in, also where it was recorded first.
    (&[(Kind::IC, 10, 1), (Kind::MI, 20, 1)], 2),
    (&[(Kind::MI, 20, 1), (Kind::IC, 10, 1)], 1),
    // A later initial certification stands right after a termination, and there only it or a move-out.
    (
        &[(Kind::MI, 10, 1), (Kind::AR, 20, 1), (Kind::IC, 30, 1)],
        3,
    ),
    (
        &[(Kind::MI, 10, 1), (Kind::TM, 20, 1), (Kind::IC, 30, 1)],
        0,
    ),
    (
        &[(Kind::MI, 10, 1), (Kind::TM, 20, 1), (Kind::MO, 30, 1)],
        0,
    ),
    (
        &[(Kind::MI, 10, 1), (Kind::TM, 20, 1), (Kind::AR, 30, 1)],
        3,
    ),
    (
        &[(Kind::MI, 10, 1), (Kind::TM, 20, 1), (Kind::TM, 30, 1)],
        3,
    ),
    // Nothing stands after a move-out.
    (&[(Kind::MI, 10, 1), (Kind::MO, 20, 1)], 0),
    (
        &[(Kind::MI, 10, 1), (Kind::MO, 20, 1), (Kind::IC, 30, 1)],
        3,
    ),
    (
        &[(Kind::MI, 10, 1), (Kind::MO, 20, 1), (Kind::MO, 30, 1)],
        3,
    ),
    // A transfer is to another unit, and each other record is for the unit of the one before it.
    (
        &[(Kind::MI, 10, 1), (Kind::UT, 20, 2), (Kind::AR, 30, 2)],
        0,
    ),
    (&[(Kind::MI, 10, 1), (Kind::UT, 20, 1)], 2),
    (
        &[(Kind::MI, 10, 1), (Kind::UT, 20, 2), (Kind::AR, 30, 1)],
        3,
    ),
    (&[(Kind::MI, 10, 1), (Kind::TM, 20, 2)], 2),
];

#[test]
fn each_rule_is_kept_or_broken(rt: HostRuntime) {
    for (rows, wanted) in &ORDERS {
        assert!(rt;
            fault(&rt, rt.alloc(), *rows, 0, None) == *wanted,
            "{wanted}"
        );
    }
}

const CHANGES: [(&[Row], u32, Option<Row>, u32); 10] = [
    // Of two records of one day the greater number stands later.
    (
        &[(Kind::MI, 10, 1), (Kind::AR, 20, 1), (Kind::TM, 20, 1)],
        0,
        None,
        0,
    ),
    (
        &[(Kind::MI, 10, 1), (Kind::TM, 20, 1), (Kind::AR, 20, 1)],
        0,
        None,
        3,
    ),
    // Without the first, the next is first.
    (&[(Kind::MI, 10, 1), (Kind::AR, 20, 1)], 1, None, 2),
    (
        &[(Kind::MI, 10, 1), (Kind::AR, 20, 1)],
        1,
        Some((Kind::MI, 15, 1)),
        0,
    ),
    // Of two faults the first in the order is named: 20 comes before 30.
    (
        &[(Kind::MI, 10, 1), (Kind::AR, 20, 1)],
        1,
        Some((Kind::MI, 30, 1)),
        2,
    ),
    // An added record stands where its day puts it.
    (&[(Kind::MI, 20, 1)], 0, Some((Kind::IR, 30, 1)), 0),
    (&[(Kind::MI, 20, 1)], 0, Some((Kind::IR, 10, 1)), 2),
    (
        &[(Kind::MI, 10, 1), (Kind::TM, 30, 1)],
        0,
        Some((Kind::AR, 20, 1)),
        0,
    ),
    (
        &[(Kind::MI, 10, 1), (Kind::TM, 20, 1)],
        0,
        Some((Kind::AR, 30, 1)),
        3,
    ),
    (
        &[(Kind::MI, 10, 1), (Kind::TM, 20, 1)],
        0,
        Some((Kind::IC, 30, 1)),
        0,
    ),
];

#[test]
fn the_change_is_judged_in_its_place(rt: HostRuntime) {
    for (rows, drop, add, wanted) in &CHANGES {
        assert!(rt;
            fault(&rt, rt.alloc(), *rows, *drop, *add) == *wanted,
            "{wanted}"
        );
    }
}

/// The other household and the number of the day of the first double use of the household's unit, where one record is
/// dropped and another added as the next; none is 0 on day 0.
fn use_of(
    rt: &impl Abort,
    history: &History,
    household: u32,
    drop: u32,
    add: Option<Row>,
) -> (u32, u32) {
    match double_use(
        history,
        household,
        &change(rt, history, household, drop, add),
    ) {
        Some(found) => (found.household, found.day.number()),
        None => (0, 0),
    }
}

// Household 1 is in unit 1 from 2024-01-01, and household 2 is to move in on 2024-02-01.
#[test]
fn one_unit_has_one_household(rt: HostRuntime) {
    let alloc = rt.alloc();
    let january = day("2024-01-01").number();
    let february = day("2024-02-01").number();
    let move_in = Some((Kind::MI, february, 1));
    let certified = (1, (Kind::IC, january, 1), 0);
    let staying = history(&rt, alloc, &[certified]);
    assert!(rt; use_of(&rt, &staying, 2, 0, move_in) == (1, february));
    let leaving = history(&rt, alloc, &[certified, (1, (Kind::MO, february, 1), 0)]);
    assert!(rt; use_of(&rt, &leaving, 2, 0, move_in) == (0, 0));
}

const STAYS: [Told; 2] = [(1, (Kind::MI, 10, 1), 0), (1, (Kind::TM, 20, 1), 0)];

const COMES_BACK: [Told; 3] = [
    (1, (Kind::MI, 10, 1), 0),
    (1, (Kind::UT, 20, 2), 0),
    (1, (Kind::UT, 40, 1), 0),
];

const SEVERAL: [Told; 3] = [
    (1, (Kind::MI, 50, 1), 0),
    (2, (Kind::MI, 60, 2), 0),
    (3, (Kind::MI, 40, 1), 0),
];

const CORRECTED: [Told; 2] = [(1, (Kind::MI, 10, 1), 0), (1, (Kind::MI, 20, 1), 1)];

const ALWAYS: [Told; 1] = [(1, (Kind::MI, 0, 1), 0)];

const USES: [(&[Told], Row, (u32, u32)); 15] = [
    // A termination of assistance leaves the household in its unit.
    (&STAYS, (Kind::MI, 30, 1), (1, 30)),
    (&STAYS, (Kind::MI, 30, 2), (0, 0)),
    // The first day on which both have it may be the other's first.
    (&STAYS, (Kind::MI, 5, 1), (1, 10)),
    // A transfer leaves the unit on its first day, and may come back to it.
    (&COMES_BACK, (Kind::MI, 19, 1), (1, 19)),
    (&COMES_BACK, (Kind::MI, 20, 1), (1, 40)),
    (&COMES_BACK, (Kind::MI, 40, 2), (0, 0)),
    // Of several others the first day decides, and on one day the least household.
    (&SEVERAL, (Kind::UT, 30, 1), (3, 40)),
    (&SEVERAL, (Kind::UT, 45, 1), (3, 45)),
    (&SEVERAL, (Kind::UT, 45, 3), (0, 0)),
    (&SEVERAL, (Kind::UT, 70, 1), (1, 70)),
    // What was corrected no longer counts.
    (&CORRECTED, (Kind::MI, 12, 1), (1, 20)),
    // From the first day of all through 2099-12-31, and no later.
    (&ALWAYS, (Kind::MI, 0, 1), (1, 0)),
    (
        &ALWAYS,
        (Kind::MI, LAST_OFFICE_DAY, 1),
        (1, LAST_OFFICE_DAY),
    ),
    (&ALWAYS, (Kind::MI, LAST_OFFICE_DAY + 1, 1), (0, 0)),
    // A move-out has no unit.
    (&ALWAYS, (Kind::MO, 10, 1), (0, 0)),
];

// What household 2 would meet with an added record.
#[test]
fn who_has_a_unit(rt: HostRuntime) {
    for (rows, added, wanted) in &USES {
        let history = history(&rt, rt.alloc(), *rows);
        assert!(rt;
            use_of(&rt, &history, 2, 0, Some(*added)) == *wanted,
            "{wanted:?}"
        );
    }
}

const MOVED_OUT: [Told; 3] = [
    (1, (Kind::MI, 30, 1), 0),
    (2, (Kind::MI, 10, 1), 0),
    (2, (Kind::MO, 30, 1), 0),
];

// Household 2 moves out on the day on which household 1 moves in; without its move-out it would still be there.
#[test]
fn a_dropped_move_out_leaves_two(rt: HostRuntime) {
    let history = history(&rt, rt.alloc(), &MOVED_OUT);
    assert!(rt; use_of(&rt, &history, 2, 0, None) == (0, 0));
    assert!(rt; use_of(&rt, &history, 2, 2, None) == (1, 30));
    // A household is no other to itself.
    assert!(rt; use_of(&rt, &history, 1, 0, Some((Kind::AR, 40, 1))) == (0, 0));
}

#[test]
fn names_the_record_of_a_history(rt: HostRuntime) {
    let rows = [(Kind::MI, 10, 1), (Kind::MO, 20, 1)];
    let history = history_of_one(&rt, rt.alloc(), &rows);
    let unchanged = Change { drop: 0, add: None };
    assert!(rt; order_fault(&history, 1, &unchanged).is_none());
    let without_first = Change { drop: 1, add: None };
    assert!(rt; order_fault(&history, 1, &without_first) == Some(2));
}
