//! The steps of a pass while it is held: it comes in, appends or looks, and goes back.

ghost use Rattle.std.specs.Prelude.{◌≡◌, ◌≤◌, ◌<◌, ◌^◌, [], ◌∷◌, length};
ghost use Rattle.desk_history.specs.declared.views.View.TheVariants.{Free, Holding, Home};
ghost use Rattle.desk_history.specs.Seen.{book_of, holding_of, pass_in};
ghost use Rattle.desk_history.specs.Moves.{holding, booked, looked, unkept, returned};
ghost use Rattle.desk_history.specs.Rule.{IsHeld, AreOfPasses};

use crate::rule::{Becomes, HistoryBadge, HistorySeat, SharedHistory, Wanted};
use crate::views::View;
use atomic_table::{Badge, Join, Split};
use book_rows::{ActRow, Batch};
use keeper_core::Keeper;
use std::marker::Brand;
use std::mem;

/// How a pass comes in.
pub struct ComeIn;

impl Join<View> for ComeIn {
    ghost use Rattle.desk_history.specs.declared.views.View.TheVariants.{Holding, Spent};
    ghost use Rattle.desk_history.specs.Seen.{book_of, pass_of};
    ghost use Rattle.desk_history.specs.Moves.{holding};

    ghost both = { λ book pass. Holding (holding (book_of book) (pass_of pass)) };

    ghost spent = { Spent };
}

/// Takes a pass in: from now on it is held.
pub fn come_in(history: &SharedHistory, book: &mut HistorySeat, pass: &mut HistoryBadge)
    requires table { (book.old.table_id ≡ history.now.table_id) × (pass.old.table_id ≡ history.now.table_id) × (history.now.table_id.words ≡ 1) }
    requires free { book.old.me ≡ (Free (book_of book.old.me.0), []) }
    requires home { pass.old.views ≡ Home (pass_in pass.old.views) ∷ [] }
    ensures same { book.new.table_id ≡ book.old.table_id }
    ensures view { book.new.me ≡ (Holding (holding (book_of book.old.me.0) (pass_in pass.old.views)), []) }
    ensures taken { pass.new.views ≡ [] }
{
    let seat = mem::replace(pass, Badge::blank()).into_seat::<()>();
    history.join_seat::<ComeIn>(book, seat);
}

fn append_as<A: Wanted>(history: &SharedHistory, book: &mut HistorySeat, row: &ActRow)
    requires table { (book.old.table_id ≡ history.now.table_id) × (history.now.table_id.words ≡ 1) }
    requires held { book.old.me ≡ (Holding (holding_of book.old.me.0), []) }
    requires own { row.now.session ≡ (holding_of book.old.me.0).pass.number }
    requires few { length (holding_of book.old.me.0).book.list < 2 ^ 32 }
    requires wanted { A.view ≡ Holding (booked (holding_of book.old.me.0) row.now) }
    ensures same { book.new.table_id ≡ book.old.table_id }
    ensures view { book.new.me ≡ (Holding (booked (holding_of book.old.me.0) row.now), []) }
    ensures before { IsHeld (holding_of book.old.me.0) }
{
    history.fetch_add::<Becomes<A>>(book, 0, 1);
}

/// Appends a row of the pass that is held.
pub fn append(history: &SharedHistory, book: &mut HistorySeat, row: &ActRow)
    requires table { (book.old.table_id ≡ history.now.table_id) × (history.now.table_id.words ≡ 1) }
    requires held { book.old.me ≡ (Holding (holding_of book.old.me.0), []) }
    requires own { row.now.session ≡ (holding_of book.old.me.0).pass.number }
    requires few { length (holding_of book.old.me.0).book.list < 2 ^ 32 }
    ensures same { book.new.table_id ≡ book.old.table_id }
    ensures view { book.new.me ≡ (Holding (booked (holding_of book.old.me.0) row.now), []) }
    ensures before { IsHeld (holding_of book.old.me.0) }
    ensures held { IsHeld (holding_of book.new.me.0) }
{
    append_as::<Brand>(history, book, row);
}

fn look_as<A: Wanted, K: Keeper>(history: &SharedHistory, book: &mut HistorySeat, keeper: &K)
    requires table { (book.old.table_id ≡ history.now.table_id) × (history.now.table_id.words ≡ 1) }
    requires held { book.old.me ≡ (Holding (holding_of book.old.me.0), []) }
    requires rose { (holding_of book.old.me.0).book.faults ≤ K.faults keeper.now }
    requires wanted { A.view ≡ Holding (looked (holding_of book.old.me.0) (K.faults keeper.now)) }
    ensures same { book.new.table_id ≡ book.old.table_id }
    ensures view { book.new.me ≡ (Holding (looked (holding_of book.old.me.0) (K.faults keeper.now)), []) }
    ensures before { IsHeld (holding_of book.old.me.0) }
    ensures passes { AreOfPasses (holding_of book.old.me.0).book.next (holding_of book.old.me.0).book.tried }
{
    history.load::<Becomes<A>>(book, 0);
}

/// Appends nothing, and sees the keeper's count of faults.
pub fn look<K: Keeper>(history: &SharedHistory, book: &mut HistorySeat, keeper: &K)
    requires table { (book.old.table_id ≡ history.now.table_id) × (history.now.table_id.words ≡ 1) }
    requires held { book.old.me ≡ (Holding (holding_of book.old.me.0), []) }
    requires rose { (holding_of book.old.me.0).book.faults ≤ K.faults keeper.now }
    ensures same { book.new.table_id ≡ book.old.table_id }
    ensures view { book.new.me ≡ (Holding (looked (holding_of book.old.me.0) (K.faults keeper.now)), []) }
    ensures before { IsHeld (holding_of book.old.me.0) }
    ensures passes { AreOfPasses (holding_of book.old.me.0).book.next (holding_of book.old.me.0).book.tried }
    ensures held { IsHeld (holding_of book.new.me.0) }
{
    look_as::<Brand, K>(history, book, keeper);
}

fn write_try_as<A: Wanted, K: Keeper>(
    history: &SharedHistory,
    book: &mut HistorySeat,
    rows: &Batch,
    keeper: &K,
)
    requires table { (book.old.table_id ≡ history.now.table_id) × (history.now.table_id.words ≡ 1) }
    requires held { book.old.me ≡ (Holding (holding_of book.old.me.0), []) }
    requires own { rows.now.act.session ≡ (holding_of book.old.me.0).pass.number }
    requires rose { (holding_of book.old.me.0).book.faults ≤ K.faults keeper.now }
    requires wanted { A.view ≡ Holding (unkept (holding_of book.old.me.0) rows.now (K.faults keeper.now)) }
    ensures same { book.new.table_id ≡ book.old.table_id }
    ensures view { book.new.me ≡ (Holding (unkept (holding_of book.old.me.0) rows.now (K.faults keeper.now)), []) }
    ensures before { IsHeld (holding_of book.old.me.0) }
{
    history.load::<Becomes<A>>(book, 0);
}

/// Writes down rows of the pass that is held which the keeper was sent and did not say it kept. It sees the keeper's count of
/// faults.
pub fn write_try<K: Keeper>(
    history: &SharedHistory,
    book: &mut HistorySeat,
    rows: &Batch,
    keeper: &K,
)
    requires table { (book.old.table_id ≡ history.now.table_id) × (history.now.table_id.words ≡ 1) }
    requires held { book.old.me ≡ (Holding (holding_of book.old.me.0), []) }
    requires own { rows.now.act.session ≡ (holding_of book.old.me.0).pass.number }
    requires rose { (holding_of book.old.me.0).book.faults ≤ K.faults keeper.now }
    ensures same { book.new.table_id ≡ book.old.table_id }
    ensures view { book.new.me ≡ (Holding (unkept (holding_of book.old.me.0) rows.now (K.faults keeper.now)), []) }
    ensures before { IsHeld (holding_of book.old.me.0) }
    ensures held { IsHeld (holding_of book.new.me.0) }
{
    write_try_as::<Brand, K>(history, book, rows, keeper);
}

/// How the pass that is held goes back.
pub struct GoBack;

impl Split<View> for GoBack {
    ghost use Rattle.desk_history.specs.declared.views.View.TheVariants.{Free, Home};
    ghost use Rattle.desk_history.specs.Seen.{holding_of};
    ghost use Rattle.desk_history.specs.Moves.{returned};

    ghost left = { λ view. Free (holding_of view).book };

    ghost right = { λ view. Home (returned (holding_of view)) };
}

/// Gives back the pass that is held. It knows what the book has.
pub fn go_back(history: &SharedHistory, book: &mut HistorySeat) -> HistoryBadge
    requires table { (book.old.table_id ≡ history.now.table_id) × (history.now.table_id.words ≡ 1) }
    requires held { book.old.me ≡ (Holding (holding_of book.old.me.0), []) }
    ensures same { book.new.table_id ≡ book.old.table_id }
    ensures book { book.new.me ≡ (Free (holding_of book.old.me.0).book, []) }
    ensures table { result.table_id ≡ history.now.table_id }
    ensures pass { result.views ≡ Home (returned (holding_of book.old.me.0)) ∷ [] }
{
    history.split_seat::<GoBack>(book).into_badge()
}
