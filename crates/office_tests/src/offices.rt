//! Offices that are opened, and calls that are sent twice.

ghost use Rattle.std.specs.Prelude.{◌≡◌, true, IfOk};
ghost use Rattle.office_core.specs.Below.office_step.Step.{is_fit_call};
ghost use Rattle.office_core.specs.Judged.{PlansFor};
ghost use Rattle.office_core.specs.Office.{HasRoomFor};
ghost use Rattle.office_core.specs.Planned.{IsPlannedFor};

use crate::telling::command;
use book_rows::{Table, Tables};
use days_core::Day;
use office_core::office_step::{Call, Capacity, Done, Fault, Made, Refusal};
use office_core::{Judged, Judgment, Office, OpenFault, Step};
use plain_data::NoMemory;
use record_history::{MOST_ACTS, MOST_LINES};
use sample_office::{CLOSE_JANUARY, OTHER_UNIT, PLAN, RENTS, START, UNIT, day, month};
use std::alloc::Global;
use std::process::Abort;

const THIRD_UNIT: &str = "{'accessible':false,'bedrooms':1,'group':1,'kind':'unit','name':'A-103'}";

const FEBRUARY: &str = "{'kind':'close','month':'2024-02'}";

const MARCH: &str = "{'kind':'close','month':'2024-03'}";

const LARGEST: Capacity = Capacity {
    acts: MOST_ACTS,
    lines: MOST_LINES,
};

/// What clerk 1 asks for on a day by a request, and what the office has to answer.
#[derive(Clone, Copy)]
struct Trial<'t> {
    today: Day,
    request: u32,
    text: &'t str,
    answer: Result<Done, Refusal>,
}

/// What the office answers, and what it then appends.
fn act(
    rt: &impl Abort,
    alloc: Global,
    office: &mut Office,
    trial: &Trial,
) -> Result<Done, Refusal> {
    let judged = judged(rt, alloc, office, trial);
    taken(rt, office, judged)
}

/// What the office would do.
fn judged(
    rt: &impl Abort,
    alloc: Global,
    office: &Office,
    trial: &Trial,
) -> Result<Judged, Judgment>
    ensures { IfOk result (PlansFor office.now.capacity office.now.book) }
{
    let call = call(rt, alloc, trial);
    plan(alloc, office, trial.today, call)
}

fn call(rt: &impl Abort, alloc: Global, trial: &Trial) -> Call
    ensures { is_fit_call result ≡ true }
{
    let request = trial.request;
    assert!(rt; request > 0);
    Call {
        clerk: 1,
        request,
        command: command(rt, alloc, trial.text),
    }
}

// Its contract says no more than `accepted` needs, which keeps the proofs above short.
fn plan(alloc: Global, office: &Office, today: Day, call: Call) -> Result<Judged, Judgment>
    requires { is_fit_call call ≡ true }
    ensures { IfOk result (PlansFor office.now.capacity office.now.book) }
{
    office.plan_step(alloc, 1, today, call)
}

fn taken(
    rt: &impl Abort,
    office: &mut Office,
    judged: Result<Judged, Judgment>,
) -> Result<Done, Refusal>
    requires { IfOk judged (PlansFor office.old.capacity office.old.book) }
{
    match judged {
        Ok(Judged::Repeat(done)) => Ok(done),
        Ok(Judged::New(step)) => Ok(accepted(rt, office, step)),
        Err(Judgment::Refused(refusal)) => Err(refusal),
        Err(Judgment::NoMemory) => panic!(rt; "no memory"),
    }
}

fn accepted(rt: &impl Abort, office: &mut Office, step: Step) -> Done
    requires { IsPlannedFor office.old.capacity office.old.book step }
{
    reserve(rt, office, &step);
    office.apply(step)
}

fn reserve(rt: &impl Abort, office: &mut Office, step: &Step)
    requires { IsPlannedFor office.old.capacity office.old.book step.now }
    ensures book { office.new.book ≡ office.old.book }
    ensures capacity { office.new.capacity ≡ office.old.capacity }
    ensures room { HasRoomFor office.new.room step.now }
{
    match office.reserve(step) {
        Ok(()) => {}
        Err(NoMemory) => panic!(rt; "no memory"),
    }
}

fn all_tried(rt: &impl Abort, alloc: Global, office: &mut Office, trials: &[Trial]) {
    for trial in trials {
        let answer = act(rt, alloc, office, trial);
        assert!(rt; answer == trial.answer, "{answer:?}");
    }
}

/// An office of that capacity, which was told of four first acts on the first of 2024 and then of these.
fn after(rt: &impl Abort, alloc: Global, capacity: Capacity, trials: &[Trial]) -> Office {
    let mut office = new(rt, alloc, capacity);
    let first = [
        on_first(1, PLAN, done(1, Made::Nothing)),
        on_first(2, UNIT, done(2, Made::Unit(1))),
        on_first(3, RENTS, done(3, Made::Nothing)),
        on_first(4, START, done(4, CERTIFIED)),
    ];
    all_tried(rt, alloc, &mut office, &first);
    all_tried(rt, alloc, &mut office, trials);
    office
}

/// An office that was told so much on the first of 2024, each of which was accepted.
pub fn told(rt: &impl Abort, alloc: Global, texts: &[&str]) -> Office {
    let mut office = new(rt, alloc, LARGEST);
    for text in texts {
        let request = office.tables().acts.len() as u32 + 1;
        let trial = on_first(request, text, done(request, Made::Nothing));
        let answer = act(rt, alloc, &mut office, &trial);
        assert!(rt; answer.is_ok(), "{text}");
    }
    office
}

fn new(rt: &impl Abort, alloc: Global, capacity: Capacity) -> Office {
    assert!(rt; capacity.acts <= MOST_ACTS && capacity.lines <= MOST_LINES);
    match Office::new(alloc, capacity) {
        Ok(office) => office,
        Err(NoMemory) => panic!(rt; "no memory"),
    }
}

fn on<'t>(today: Day, request: u32, text: &'t str, answer: Result<Done, Refusal>) -> Trial<'t> {
    Trial {
        today,
        request,
        text,
        answer,
    }
}

fn on_first<'t>(request: u32, text: &'t str, answer: Result<Done, Refusal>) -> Trial<'t> {
    on(day("2024-01-01"), request, text, answer)
}

/// What an office answers to an act on the first of 2024.
fn done(act: u32, made: Made) -> Result<Done, Refusal> {
    Ok(Done {
        act,
        day: day("2024-01-01"),
        made,
    })
}

fn closed(act: u32, text: &str) -> Result<Done, Refusal> {
    done(
        act,
        Made::Closed {
            amount: 548,
            lines: 1,
            month: month(text),
        },
    )
}

const CERTIFIED: Made = Made::Certified {
    assistance: 548,
    household: 1,
    target: 1,
    reimbursement: 0,
    tenant_rent: 152,
    ttp: 212,
};

// The same request once more is answered as before and kept once; another command with it is refused.
#[test]
fn a_repeat_gets_its_first_reply(rt: HostRuntime) {
    let march = day("2024-03-01");
    let trials = [
        on(march, 4, START, done(4, CERTIFIED)),
        on(march, 2, UNIT, done(2, Made::Unit(1))),
        on(march, 4, UNIT, Err(Refusal::RequestReused { act: 4 })),
    ];
    let office = after(&rt, rt.alloc(), LARGEST, &trials);
    assert!(rt; office.tables().acts.len() == 4 && office.households() == 1);
    let_go(office);
}

/// Lets the office go. What that frees is in this function's proof, and in no test's.
pub(crate) fn let_go(_office: Office) {}

// A day never falls, whatever the clock shows.
#[test]
fn an_earlier_clock_changes_no_day(rt: HostRuntime) {
    let may = day("2024-05-20");
    let fifth = Done {
        act: 5,
        day: may,
        made: Made::Unit(2),
    };
    let sixth = Done {
        act: 6,
        day: may,
        made: Made::Unit(3),
    };
    let trials = [
        on(may, 10, OTHER_UNIT, Ok(fifth)),
        on(day("2024-02-01"), 11, THIRD_UNIT, Ok(sixth)),
    ];
    let_go(after(&rt, rt.alloc(), LARGEST, &trials));
}

// A book for four acts is full.
#[test]
fn a_book_is_full(rt: HostRuntime) {
    let full = Err(Refusal::BookFull { acts: 4 });
    let trials = [on_first(10, CLOSE_JANUARY, full)];
    let_go(after(&rt, rt.alloc(), Capacity { acts: 4, lines: 2 }, &trials));
}

// A book for two lines can't hold a third.
#[test]
fn lines_are_full(rt: HostRuntime) {
    let full = Err(Refusal::LinesFull { lines: 2, more: 1 });
    let trials = [
        on_first(10, CLOSE_JANUARY, closed(5, "2024-01")),
        on_first(11, FEBRUARY, closed(6, "2024-02")),
        on_first(12, MARCH, full),
    ];
    let_go(after(&rt, rt.alloc(), Capacity { acts: 9, lines: 2 }, &trials));
}

/// The tables of an office that closed January by act 5, whose line is of that amount.
fn tables(rt: &impl Abort, alloc: Global, amount: i32) -> Tables {
    let january = on_first(5, CLOSE_JANUARY, closed(5, "2024-01"));
    let mut tables = after(rt, alloc, LARGEST, &[january]).into_tables();
    assert_eq!(rt; tables.lines.len(), 1);
    tables.lines[0].amount = amount;
    tables
}

// An office's own tables are opened again: what it did is a repeat.
#[test]
fn its_own_tables_are_opened(rt: HostRuntime) {
    let tables = tables(&rt, rt.alloc(), 548);
    assert_opens(&rt, rt.alloc(), tables);
}

fn assert_opens(rt: &impl Abort, alloc: Global, tables: Tables) {
    let january = on_first(5, CLOSE_JANUARY, closed(5, "2024-01"));
    match Office::open(alloc, tables, LARGEST) {
        Ok(mut office) => {
            all_tried(rt, alloc, &mut office, &[january]);
            let_go(office);
        }
        Err(fault) => panic!(rt; "{fault:?}"),
    }
}

// With the line of act 5 for 549 in place of 548 they are no office's.
#[test]
fn a_changed_amount_is_a_fault(rt: HostRuntime) {
    let tables = tables(&rt, rt.alloc(), 549);
    let fault = Fault {
        table: Table::Lines,
        act: 5,
    };
    let opened = Office::open(rt.alloc(), tables, LARGEST);
    assert!(rt; opened.err() == Some(OpenFault::BadBook(fault)));
}
