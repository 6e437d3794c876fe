//! Desks that tests open and let go.

ghost use Rattle.std.specs.Prelude.{◌≡◌, ◌↔◌, []};
ghost use Rattle.book_rows.specs.Book.{Book};
ghost use Rattle.desk_history.specs.declared.views.View.TheVariants.{Blank};

use desk_history::NewHistory;
use keeper_core::PlannedKeeper;
use office_core::Capacity;
use shared_desk::{Desk, Finished, Naming};
use std::alloc::Global;

/// A desk over the history, on the keeper's book.
pub fn desk<B: Naming>(
    alloc: Global,
    history: NewHistory,
    keeper: PlannedKeeper,
) -> Option<Desk<PlannedKeeper, B>>
    requires table { (history.table.shared.table_id ≡ B.table) × (history.book.table_id ≡ B.table) × (B.table.words ≡ 1) }
    requires blank { history.book.me ≡ (Blank, []) }
    requires told { (book : Book) → B.told book ↔ (book ≡ keeper.book) }
    requires sound { B.sound → ⊥ }
{
    let few = Capacity {
        acts: 90,
        lines: 900,
    };
    Desk::open(alloc, history, keeper, few).ok()
}

/// Lets the desk go. All that it frees is in this function's proof, and in no other's.
pub fn let_go<B: Naming>(_desk: Desk<PlannedKeeper, B>) {}

/// How many acts the keeper keeps that a desk left.
pub fn acts_kept(left: Finished<PlannedKeeper>) -> usize {
    left.keeper.tables().acts.len()
}
