//! Two clerks' sessions at one desk.

ghost use Rattle.std.specs.Prelude.{◌≡◌, ◌↔◌, []};
ghost use Rattle.book_rows.specs.Book.{Book, book_of};
ghost use Rattle.desk_history.specs.declared.views.View.TheVariants.{Blank};

use crate::sessions::{ASK, CERTIFIED, SEEN, interim, writes};
use book_rows::Tables;
use desk_history::{NewHistory, new_history};
use keeper_core::PlannedKeeper;
use sample_desks::{acts_kept, begun_tables, desk};
use shared_desk::{Naming, Pass, SharedDesk};
use std::alloc::Global;
use std::marker::Brand;
use std::process::Abort;
use std::sync::Wait;

// The second clerk's act is stale once the first clerk's is made, and a repeat has the first reply.
fn work_in_turn<B: Naming, R: Abort + Wait>(
    rt: &R,
    alloc: Global,
    desk: &SharedDesk<PlannedKeeper, B>,
    first: &mut Pass<B>,
    second: &mut Pass<B>,
) {
    let act = interim(rt, alloc);
    assert!(rt; writes(rt, alloc, desk, first, &act, CERTIFIED));
    let other = act
        .replace(alloc, "\"clerk\":1", "\"clerk\":2")
        .expect(rt, "memory");
    let stale = "book: 5\r\ncontent-length: 50\r\ncontent-type: application/json\r\n\r\n\
        {'refused':{'kind':'Stale','newest':2,'number':6}}";
    assert!(rt; writes(rt, alloc, desk, second, &other, stale));
    assert!(rt; writes(rt, alloc, desk, second, ASK, SEEN));
    assert!(rt; writes(rt, alloc, desk, second, &act, CERTIFIED));
    assert!(rt; (first.seen(), second.seen()) == (5, 5));
}

fn in_turn<B: Naming, R: Abort + Wait>(rt: &R, alloc: Global, history: NewHistory, tables: Tables)
    requires table { (history.table.shared.table_id ≡ B.table) × (history.book.table_id ≡ B.table) × (B.table.words ≡ 1) }
    requires blank { history.book.me ≡ (Blank, []) }
    requires told { (book : Book) → B.told book ↔ (book ≡ book_of tables) }
    requires sound { B.sound → ⊥ }
{
    let keeper = PlannedKeeper::with(tables, Vec::new(alloc));
    let mut desk = desk::<B>(alloc, history, keeper).expect(rt, "a desk");
    let mut first = desk.pass().expect(rt, "a pass");
    let mut second = desk.pass().expect(rt, "a pass");
    work_in_turn(rt, alloc, desk.shared(), &mut first, &mut second);
    assert!(rt; acts_kept(desk.finish(second)) == 5);
}

#[test]
fn two_sessions_on_one_desk(rt: HostRuntime) {
    let alloc = rt.alloc();
    let history = new_history(alloc).expect(&rt, "memory");
    let tables = begun_tables::<Brand, HostRuntime>(&rt, alloc, history).expect(&rt, "tables");
    let history = new_history(alloc).expect(&rt, "memory");
    in_turn::<Brand, HostRuntime>(&rt, alloc, history, tables);
}
