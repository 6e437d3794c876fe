//! Threads at one desk.

ghost use Rattle.std.specs.Prelude.{◌≡◌, ◌↔◌, ◌≤◌, []};
ghost use Rattle.book_rows.specs.Book.{Book, empty_book};
ghost use Rattle.desk_history.specs.declared.views.View.TheVariants.{Blank};

use book_rows::Tables;
use desk_history::{NewHistory, new_history};
use keeper_core::PlannedKeeper;
use sample_desks::{act_of, book_act, call_of, desk, outcome_of};
use sample_office::{APPLY, PLAN};
use shared_desk::{Finished, Naming, Pass, SharedDesk};
use std::alloc::Global;
use std::marker::Brand;
use std::process::Abort;
use std::sync::Wait;
use std::thread::{Threads, join};

/// Three who apply, each told to the clerk whose pass it is.
fn apply_all<B: Naming, R: Abort + Wait>(
    rt: &R,
    alloc: Global,
    desk: &SharedDesk<PlannedKeeper, B>,
    mut pass: Pass<B>,
    clerk: u32,
) -> Pass<B>
    requires { (1 ≤ clerk) × (clerk ≤ 9) }
{
    for request in 0..3 {
        let before = pass.seen();
        let call = call_of(alloc, clerk, request + 2, APPLY).expect(rt, "a call");
        let outcome = outcome_of(rt, alloc, desk, &mut pass, "2024-01-02", call);
        assert!(rt; before < outcome.point && outcome.point == pass.seen());
        assert!(rt; act_of(outcome.reply) == outcome.point);
    }
    pass
}

/// The same by two threads, of the second clerk and of the third.
fn both_apply<B: Naming + Send, R: Abort + Wait + Threads + Sync>(
    rt: &R,
    alloc: Global,
    desk: &SharedDesk<PlannedKeeper, B>,
    second: Pass<B>,
    third: Pass<B>,
) -> (Pass<B>, Pass<B>) {
    join(
        rt,
        move || apply_all(rt, alloc, desk, second, 2),
        move || apply_all(rt, alloc, desk, third, 3),
    )
}

fn by_three_threads<B: Naming + Send, R: Abort + Wait + Threads + Sync>(
    rt: &R,
    alloc: Global,
    history: NewHistory,
)
    requires table { (history.table.shared.table_id ≡ B.table) × (history.book.table_id ≡ B.table) × (B.table.words ≡ 1) }
    requires blank { history.book.me ≡ (Blank, []) }
    requires told { (book : Book) → B.told book ↔ (book ≡ empty_book) }
    requires sound { B.sound → ⊥ }
{
    let keeper = PlannedKeeper::new(alloc, Vec::new(alloc));
    let mut desk = desk::<B>(alloc, history, keeper).expect(rt, "a desk");
    let mut first = desk.pass().expect(rt, "a pass");
    let second = desk.pass().expect(rt, "a pass");
    let third = desk.pass().expect(rt, "a pass");
    let shared = desk.shared();
    assert!(rt; book_act(rt, alloc, shared, &mut first, 1, PLAN));
    let (mut first, (mut second, mut third)) = join(
        rt,
        move || apply_all(rt, alloc, shared, first, 1),
        move || both_apply(rt, alloc, shared, second, third),
    );
    let note = shared.note(&mut second);
    shared.learn(&mut first, note);
    let note = shared.note(&mut third);
    shared.learn(&mut first, note);
    assert!(rt; first.seen() == 10);
    let note = shared.merge(shared.note(&mut first), shared.note(&mut third));
    shared.learn(&mut second, note);
    assert!(rt; second.seen() == 10);
    let mut others = Vec::with_capacity(alloc, 2).expect(rt, "memory");
    others.push_reserved(second);
    others.push_reserved(third);
    assert!(rt; by_sessions(desk.finish_with(first, others)) == (10, 4, 3, 3));
}

fn of_session(tables: &Tables, session: u32) -> usize {
    tables
        .acts
        .iter()
        .filter(|act| act.session == session)
        .count()
}

/// How many acts a desk left, and how many of these are of the first, the second and the third session.
fn by_sessions(left: Finished<PlannedKeeper>) -> (usize, usize, usize, usize) {
    let tables = left.tables;
    (
        tables.acts.len(),
        of_session(&tables, 1),
        of_session(&tables, 2),
        of_session(&tables, 3),
    )
}

#[test]
fn three_threads_share_a_desk(rt: HostRuntime) {
    let alloc = rt.alloc();
    let history = new_history(alloc).expect(&rt, "memory");
    by_three_threads::<Brand, HostRuntime>(&rt, alloc, history);
}
