//! Notes: a pass writes one, and another learns it.

ghost use Rattle.std.specs.Prelude.{◌≡◌, ◌≤◌, [], ◌∷◌};
ghost use mathlib.Core.List.{IsPrefix};
ghost use Rattle.desk_history.specs.declared.views.View.TheVariants.{Free, Home, Learning, Noted};
ghost use Rattle.desk_history.specs.Seen.{entries_of, tries_of, book_of, pass_of, note_of, pass_in, note_in};
ghost use Rattle.desk_history.specs.Moves.{noted, longer, learned};
ghost use Rattle.desk_history.specs.Rule.{AreOfPasses};

use crate::holding::{come_in, look};
use crate::rule::{Becomes, HistoryBadge, HistorySeat, HistoryTable, SharedHistory, Wanted};
use crate::views::View;
use atomic_table::{Badge, Join, Split};
use keeper_core::Keeper;
use std::marker::Brand;
use std::mem;

/// How a note is written.
pub struct WriteNote;

impl Split<View> for WriteNote {
    ghost use Rattle.desk_history.specs.declared.views.View.TheVariants.{Home, Noted};
    ghost use Rattle.desk_history.specs.Seen.{pass_of};
    ghost use Rattle.desk_history.specs.Moves.{noted};

    ghost left = { λ view. Home (pass_of view) };

    ghost right = { λ view. Noted (noted (pass_of view)) };
}

/// Writes down what a pass knows.
pub fn write_note(history: &SharedHistory, pass: &mut HistoryBadge) -> HistoryBadge
    requires table { (pass.old.table_id ≡ history.now.table_id) × (history.now.table_id.words ≡ 1) }
    requires home { pass.old.views ≡ Home (pass_in pass.old.views) ∷ [] }
    ensures same { pass.new.table_id ≡ pass.old.table_id }
    ensures pass { pass.new.views ≡ pass.old.views }
    ensures table { result.table_id ≡ history.now.table_id }
    ensures note { result.views ≡ Noted (noted (pass_in pass.old.views)) ∷ [] }
{
    let mut seat = mem::replace(pass, Badge::blank()).into_seat::<()>();
    let note = history.split_seat::<WriteNote>(&mut seat);
    *pass = seat.into_badge();
    note.into_badge()
}

/// How a pass takes a note.
pub struct TakeNote;

impl Join<View> for TakeNote {
    ghost use Rattle.desk_history.specs.declared.views.View.TheVariants.{Learning, Spent};
    ghost use Rattle.desk_history.specs.Seen.{pass_of, note_of};

    ghost both = { λ pass note. Learning (pass_of pass) (note_of note) };

    ghost spent = { Spent };
}

fn take_note(history: &SharedHistory, pass: &mut HistorySeat, note: HistoryBadge)
    requires table { (pass.old.table_id ≡ history.now.table_id) × (note.table_id ≡ history.now.table_id) × (history.now.table_id.words ≡ 1) }
    requires home { pass.old.me ≡ (Home (pass_of pass.old.me.0), []) }
    requires note { note.views ≡ Noted (note_in note.views) ∷ [] }
    ensures same { pass.new.table_id ≡ pass.old.table_id }
    ensures view { pass.new.me ≡ (Learning (pass_of pass.old.me.0) (note_in note.views), []) }
{
    let seat = note.into_seat::<()>();
    history.join_seat::<TakeNote>(pass, seat);
}

fn read_note_as<A: Wanted>(history: &SharedHistory, pass: &mut HistorySeat)
    requires table { (pass.old.table_id ≡ history.now.table_id) × (history.now.table_id.words ≡ 1) }
    requires learning { pass.old.me ≡ (Learning (pass_of pass.old.me.0) (note_of pass.old.me.0), []) }
    requires wanted { A.view ≡ Home (learned (pass_of pass.old.me.0) (note_of pass.old.me.0)) }
    ensures same { pass.new.table_id ≡ pass.old.table_id }
    ensures view { pass.new.me ≡ (Home (learned (pass_of pass.old.me.0) (note_of pass.old.me.0)), []) }
    ensures front { IsPrefix (pass_of pass.old.me.0).list (longer (pass_of pass.old.me.0).list (note_of pass.old.me.0).list) }
    ensures note { IsPrefix (note_of pass.old.me.0).list (longer (pass_of pass.old.me.0).list (note_of pass.old.me.0).list) }
    ensures own { entries_of (pass_of pass.old.me.0).number (longer (pass_of pass.old.me.0).list (note_of pass.old.me.0).list) ≡ entries_of (pass_of pass.old.me.0).number (pass_of pass.old.me.0).list }
    ensures start { (note_of pass.old.me.0).start ≡ (pass_of pass.old.me.0).start }
{
    history.load::<Becomes<A>>(pass, 0);
}

fn read_note(history: &SharedHistory, pass: &mut HistorySeat)
    requires table { (pass.old.table_id ≡ history.now.table_id) × (history.now.table_id.words ≡ 1) }
    requires learning { pass.old.me ≡ (Learning (pass_of pass.old.me.0) (note_of pass.old.me.0), []) }
    ensures same { pass.new.table_id ≡ pass.old.table_id }
    ensures view { pass.new.me ≡ (Home (learned (pass_of pass.old.me.0) (note_of pass.old.me.0)), []) }
    ensures front { IsPrefix (pass_of pass.old.me.0).list (longer (pass_of pass.old.me.0).list (note_of pass.old.me.0).list) }
    ensures note { IsPrefix (note_of pass.old.me.0).list (longer (pass_of pass.old.me.0).list (note_of pass.old.me.0).list) }
    ensures own { entries_of (pass_of pass.old.me.0).number (longer (pass_of pass.old.me.0).list (note_of pass.old.me.0).list) ≡ entries_of (pass_of pass.old.me.0).number (pass_of pass.old.me.0).list }
    ensures start { (note_of pass.old.me.0).start ≡ (pass_of pass.old.me.0).start }
{
    read_note_as::<Brand>(history, pass);
}

/// Learns what a note says: the pass then knows the longer of the two lists, of which each is a beginning.
pub fn learn(history: &SharedHistory, pass: &mut HistoryBadge, note: HistoryBadge)
    requires table { (pass.old.table_id ≡ history.now.table_id) × (note.table_id ≡ history.now.table_id) × (history.now.table_id.words ≡ 1) }
    requires home { pass.old.views ≡ Home (pass_in pass.old.views) ∷ [] }
    requires note { note.views ≡ Noted (note_in note.views) ∷ [] }
    ensures same { pass.new.table_id ≡ pass.old.table_id }
    ensures pass { pass.new.views ≡ Home (learned (pass_in pass.old.views) (note_in note.views)) ∷ [] }
    ensures front { IsPrefix (pass_in pass.old.views).list (pass_in pass.new.views).list }
    ensures note { IsPrefix (note_in note.views).list (pass_in pass.new.views).list }
    ensures own { entries_of (pass_in pass.new.views).number (pass_in pass.new.views).list ≡ entries_of (pass_in pass.old.views).number (pass_in pass.old.views).list }
    ensures start { (note_in note.views).start ≡ (pass_in pass.old.views).start }
{
    let mut seat = mem::replace(pass, Badge::blank()).into_seat::<()>();
    take_note(history, &mut seat, note);
    read_note(history, &mut seat);
    *pass = seat.into_badge();
}

/// Ends a history with a pass: the book's list goes on from what the pass knows, and has no further entry of its number; of
/// what was tried, just the pass's tries are of its number.
pub fn finish<K: Keeper>(
    table: HistoryTable,
    mut book: HistorySeat,
    mut pass: HistoryBadge,
    keeper: &K,
)
    requires table { (book.table_id ≡ table.shared.table_id) × (pass.table_id ≡ table.shared.table_id) × (table.shared.table_id.words ≡ 1) }
    requires free { book.me ≡ (Free (book_of book.me.0), []) }
    requires home { pass.views ≡ Home (pass_in pass.views) ∷ [] }
    requires rose { (book_of book.me.0).faults ≤ K.faults keeper.now }
    ensures start { (pass_in pass.views).start ≡ (book_of book.me.0).start }
    ensures front { IsPrefix (pass_in pass.views).list (book_of book.me.0).list }
    ensures own { entries_of (pass_in pass.views).number (book_of book.me.0).list ≡ entries_of (pass_in pass.views).number (pass_in pass.views).list }
    ensures tried { tries_of (pass_in pass.views).number (book_of book.me.0).tried ≡ (pass_in pass.views).tried }
    ensures passes { AreOfPasses (book_of book.me.0).next (book_of book.me.0).tried }
{
    come_in(&table.shared, &mut book, &mut pass);
    look(&table.shared, &mut book, keeper);
}
