//! Calls and tables that tests of desks begin with.

ghost use Rattle.std.specs.Prelude.{◌≡◌, ◌↔◌, ◌≤◌, true, [], IfOk};
ghost use Rattle.book_rows.specs.Book.{Book, empty_book};
ghost use Rattle.book_rows.specs.Fit.{is_fit};
ghost use Rattle.office_core.specs.Below.office_step.Step.{is_fit_call};
ghost use Rattle.desk_history.specs.declared.views.View.TheVariants.{Blank};

use crate::desks::{desk, let_go};
use book_rows::{Command, Tables};
use desk_history::NewHistory;
use keeper_core::PlannedKeeper;
use office_core::Call;
use office_core::command_text::{BodyFault, command_of_body};
use office_core::office_answers::Reply;
use office_io::FixedClock;
use sample_office::{PLAN, RENTS, START, UNIT, body, office_day};
use shared_desk::{Desk, Naming, Outcome, Pass, SharedDesk};
use std::alloc::Global;
use std::sync::Wait;

fn read(alloc: Global, text: &str) -> Result<Command, BodyFault>
    ensures { IfOk result (λ asked. is_fit asked ≡ true) }
{
    let body = body(alloc, text)?;
    command_of_body(alloc, body.as_bytes())
}

/// A clerk's call of that request, whose command has this text.
pub fn call_of(alloc: Global, clerk: u32, request: u32, text: &str) -> Result<Call, BodyFault>
    requires clerk { (1 ≤ clerk) × (clerk ≤ 9999) }
    requires request { 1 ≤ request }
    ensures { IfOk result (λ call. is_fit_call call ≡ true) }
{
    let command = read(alloc, text)?;
    Ok(Call {
        clerk,
        request,
        command,
    })
}

/// What the pass is told of that call on a day.
pub fn outcome_of<B: Naming, R: Wait>(
    rt: &R,
    alloc: Global,
    desk: &SharedDesk<PlannedKeeper, B>,
    pass: &mut Pass<B>,
    today: &str,
    call: Call,
) -> Outcome
    requires { is_fit_call call ≡ true }
{
    let clock = FixedClock::new(office_day(today));
    desk.call(rt, alloc, pass, call, &clock)
}

/// The number of the act that was accepted, and 0 where none was.
pub fn act_of(reply: Reply) -> u32 {
    match reply {
        Reply::Accepted(done) => done.act,
        _ => 0,
    }
}

/// Has clerk 1 call for an act on the second of January 2024, and says whether it is booked under that number.
pub fn book_act<B: Naming, R: Wait>(
    rt: &R,
    alloc: Global,
    desk: &SharedDesk<PlannedKeeper, B>,
    pass: &mut Pass<B>,
    act: u32,
    text: &str,
) -> bool
    requires { 1 ≤ act }
{
    match call_of(alloc, 1, act, text) {
        Ok(call) => {
            let outcome = outcome_of(rt, alloc, desk, pass, "2024-01-02", call);
            (outcome.point, act_of(outcome.reply)) == (act, act)
        }
        Err(_) => false,
    }
}

/// The tables of an office that was told of a plan, a unit, its rents and a household, by two passes in turn.
pub fn begun_tables<B: Naming, R: Wait>(
    rt: &R,
    alloc: Global,
    history: NewHistory,
) -> Option<Tables>
    requires table { (history.table.shared.table_id ≡ B.table) × (history.book.table_id ≡ B.table) × (B.table.words ≡ 1) }
    requires blank { history.book.me ≡ (Blank, []) }
    requires told { (book : Book) → B.told book ↔ (book ≡ empty_book) }
    requires sound { B.sound → ⊥ }
{
    let keeper = PlannedKeeper::new(alloc, Vec::new(alloc));
    let mut desk = desk::<B>(alloc, history, keeper)?;
    match (desk.pass(), desk.pass()) {
        (Ok(first), Ok(second)) => tables_left(rt, alloc, desk, first, second),
        _ => {
            let_go(desk);
            None
        }
    }
}

/// What the desk leaves once it was told of the four acts.
fn tables_left<B: Naming, R: Wait>(
    rt: &R,
    alloc: Global,
    desk: Desk<PlannedKeeper, B>,
    mut first: Pass<B>,
    mut second: Pass<B>,
) -> Option<Tables> {
    let shared = desk.shared();
    let booked = book_act(rt, alloc, shared, &mut first, 1, PLAN)
        && book_act(rt, alloc, shared, &mut second, 2, UNIT)
        && book_act(rt, alloc, shared, &mut first, 3, RENTS)
        && book_act(rt, alloc, shared, &mut second, 4, START)
        && (first.seen(), second.seen()) == (3, 4);
    let tables = desk.finish(first).tables;
    booked.then_some(tables)
}
