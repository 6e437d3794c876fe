//! Passes in turn, and all of them.

ghost use Rattle.std.specs.Prelude.{◌≡◌, ◌↔◌, []};
ghost use Rattle.book_rows.specs.Book.{Book, empty_book, book_of};
ghost use Rattle.desk_history.specs.declared.views.View.TheVariants.{Blank};

use crate::household::{certified, newest, raise};
use book_rows::Tables;
use desk_history::{NewHistory, new_history};
use keeper_core::PlannedKeeper;
use office_core::Refusal;
use office_core::office_answers::Reply;
use sample_desks::{begun_tables, desk, let_go};
use shared_desk::{Finished, MOST_PASSES, Naming, PassFault};
use std::alloc::Global;
use std::marker::Brand;
use std::process::Abort;
use std::sync::Wait;

/// The number and the session of the last act that a desk left.
fn last_act(left: Finished<PlannedKeeper>) -> Option<(u32, u32)> {
    let act = left.tables.acts.last()?;
    Some((act.n, act.session))
}

// The second pass's act is seen by the first in its next call, which it makes stale, and stands under the second's number.
fn in_turn<B: Naming, R: Abort + Wait>(rt: &R, alloc: Global, history: NewHistory, tables: Tables)
    requires table { (history.table.shared.table_id ≡ B.table) × (history.book.table_id ≡ B.table) × (B.table.words ≡ 1) }
    requires blank { history.book.me ≡ (Blank, []) }
    requires told { (book : Book) → B.told book ↔ (book ≡ book_of tables) }
    requires sound { B.sound → ⊥ }
{
    let keeper = PlannedKeeper::with(tables, Vec::new(alloc));
    let mut desk = desk::<B>(alloc, history, keeper).expect(rt, "a desk");
    let mut first = desk.pass().expect(rt, "a pass");
    let mut second = desk.pass().expect(rt, "a pass");
    assert!(rt; (first.number(), second.number()) == (1, 2));
    assert!(rt; (first.seen(), second.seen()) == (4, 4));
    let shared = desk.shared();
    assert!(rt; newest(rt, alloc, shared, &mut first) == (1, 4));
    let at = "2024-02-01";
    raise(rt, alloc, shared, &mut second, 1, at, (5, certified(5)));
    let stale = Reply::Refused(Refusal::Stale { newest: 2 });
    raise(rt, alloc, shared, &mut first, 2, at, (5, stale));
    assert!(rt; newest(rt, alloc, shared, &mut second) == (2, 5));
    assert!(rt; last_act(desk.finish(first)) == Some((5, 2)));
}

#[test]
fn two_passes_in_turn(rt: HostRuntime) {
    let alloc = rt.alloc();
    let history = new_history(alloc).expect(&rt, "memory");
    let tables = begun_tables::<Brand, HostRuntime>(&rt, alloc, history).expect(&rt, "tables");
    let history = new_history(alloc).expect(&rt, "memory");
    in_turn::<Brand, HostRuntime>(&rt, alloc, history, tables);
}

fn all_handed_out<B: Naming, R: Abort>(rt: &R, alloc: Global, history: NewHistory)
    requires table { (history.table.shared.table_id ≡ B.table) × (history.book.table_id ≡ B.table) × (B.table.words ≡ 1) }
    requires blank { history.book.me ≡ (Blank, []) }
    requires told { (book : Book) → B.told book ↔ (book ≡ empty_book) }
    requires sound { B.sound → ⊥ }
{
    let keeper = PlannedKeeper::new(alloc, Vec::new(alloc));
    let mut desk = desk::<B>(alloc, history, keeper).expect(rt, "a desk");
    for given in 0..MOST_PASSES {
        assert!(rt; desk.pass().expect(rt, "a pass").number() == given + 1);
    }
    match desk.pass() {
        Ok(_) => panic!(rt; "one pass too many"),
        Err(fault) => assert!(rt; fault == PassFault::TooManyPasses { made: 32 }),
    }
    let_go(desk);
}

#[test]
fn thirty_two_passes(rt: HostRuntime) {
    let alloc = rt.alloc();
    let history = new_history(alloc).expect(&rt, "memory");
    all_handed_out::<Brand, HostRuntime>(&rt, alloc, history);
}
