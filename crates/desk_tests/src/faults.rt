//! A desk whose keeper fails.

ghost use Rattle.std.specs.Prelude.{◌≡◌, ◌↔◌, []};
ghost use Rattle.book_rows.specs.Book.{Book, book_of};
ghost use Rattle.desk_history.specs.declared.views.View.TheVariants.{Blank};

use crate::household::{certified, newest, raise};
use book_rows::Tables;
use desk_history::{NewHistory, new_history};
use keeper_core::PlannedKeeper;
use office_core::office_answers::Reply;
use sample_desks::{begun_tables, desk};
use shared_desk::{Finished, Naming};
use std::alloc::Global;
use std::marker::Brand;
use std::process::Abort;
use std::sync::Wait;

// The first commit fails, and nothing is booked. The same call by another pass is, and its repeat is answered alike. A pass
// that learns of it has seen it, and the keeper has what the desk leaves.
fn failing<B: Naming, R: Abort + Wait>(
    rt: &R,
    alloc: Global,
    history: NewHistory,
    tables: Tables,
    first_commit: Vec<u64>,
)
    requires table { (history.table.shared.table_id ≡ B.table) × (history.book.table_id ≡ B.table) × (B.table.words ≡ 1) }
    requires blank { history.book.me ≡ (Blank, []) }
    requires told { (book : Book) → B.told book ↔ (book ≡ book_of tables) }
    requires sound { B.sound → ⊥ }
{
    let keeper = PlannedKeeper::with(tables, first_commit);
    let mut desk = desk::<B>(alloc, history, keeper).expect(rt, "a desk");
    let mut first = desk.pass().expect(rt, "a pass");
    let mut second = desk.pass().expect(rt, "a pass");
    let mut third = desk.pass().expect(rt, "a pass");
    let shared = desk.shared();
    let at = "2024-02-01";
    raise(rt, alloc, shared, &mut first, 1, at, (4, Reply::StoreFault));
    raise(rt, alloc, shared, &mut second, 1, at, (5, certified(5)));
    raise(
        rt,
        alloc,
        shared,
        &mut first,
        1,
        "2024-02-03",
        (5, certified(5)),
    );
    let note = shared.note(&mut first);
    assert!(rt; third.seen() == 4);
    shared.learn(&mut third, note);
    assert!(rt; third.seen() == 5);
    assert!(rt; newest(rt, alloc, shared, &mut third) == (2, 5));
    assert!(rt; counts(desk.finish(third)) == (1, 5, 5));
}

/// How many faults the keeper that a desk left has counted, and how many acts the tables have and the keeper keeps.
fn counts(left: Finished<PlannedKeeper>) -> (u64, usize, usize) {
    let Finished { tables, keeper } = left;
    (
        keeper.faults(),
        tables.acts.len(),
        keeper.tables().acts.len(),
    )
}

#[test]
fn the_first_commit_fails(rt: HostRuntime) {
    let alloc = rt.alloc();
    let history = new_history(alloc).expect(&rt, "memory");
    let tables = begun_tables::<Brand, HostRuntime>(&rt, alloc, history).expect(&rt, "tables");
    // The load is the call before.
    let first_commit = [1].to_vec(alloc).expect(&rt, "memory");
    let history = new_history(alloc).expect(&rt, "memory");
    failing::<Brand, HostRuntime>(&rt, alloc, history, tables, first_commit);
}
