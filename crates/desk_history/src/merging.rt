//! Two notes of one history joined.

ghost use Rattle.std.specs.Prelude.{◌≡◌, [], ◌∷◌};
ghost use mathlib.Core.List.{IsPrefix};
ghost use Rattle.desk_history.specs.declared.views.View.TheVariants.{Noted, Merging};
ghost use Rattle.desk_history.specs.Seen.{note_of, other_of, note_in};
ghost use Rattle.desk_history.specs.Moves.{longer, merged};

use crate::rule::{Becomes, HistoryBadge, HistorySeat, SharedHistory, Wanted};
use crate::views::View;
use atomic_table::Join;
use std::marker::Brand;

/// How a note takes another.
pub struct TakeOther;

impl Join<View> for TakeOther {
    ghost use Rattle.desk_history.specs.declared.views.View.TheVariants.{Merging, Spent};
    ghost use Rattle.desk_history.specs.Seen.{note_of};

    ghost both = { λ first other. Merging (note_of first) (note_of other) };

    ghost spent = { Spent };
}

fn take_other(history: &SharedHistory, first: &mut HistorySeat, other: HistoryBadge)
    requires table { (first.old.table_id ≡ history.now.table_id) × (other.table_id ≡ history.now.table_id) × (history.now.table_id.words ≡ 1) }
    requires first { first.old.me ≡ (Noted (note_of first.old.me.0), []) }
    requires other { other.views ≡ Noted (note_in other.views) ∷ [] }
    ensures same { first.new.table_id ≡ first.old.table_id }
    ensures view { first.new.me ≡ (Merging (note_of first.old.me.0) (note_in other.views), []) }
{
    let seat = other.into_seat::<()>();
    history.join_seat::<TakeOther>(first, seat);
}

fn read_both_as<A: Wanted>(history: &SharedHistory, notes: &mut HistorySeat)
    requires table { (notes.old.table_id ≡ history.now.table_id) × (history.now.table_id.words ≡ 1) }
    requires merging { notes.old.me ≡ (Merging (note_of notes.old.me.0) (other_of notes.old.me.0), []) }
    requires wanted { A.view ≡ Noted (merged (note_of notes.old.me.0) (other_of notes.old.me.0)) }
    ensures same { notes.new.table_id ≡ notes.old.table_id }
    ensures view { notes.new.me ≡ (Noted (merged (note_of notes.old.me.0) (other_of notes.old.me.0)), []) }
    ensures first { IsPrefix (note_of notes.old.me.0).list (longer (note_of notes.old.me.0).list (other_of notes.old.me.0).list) }
    ensures other { IsPrefix (other_of notes.old.me.0).list (longer (note_of notes.old.me.0).list (other_of notes.old.me.0).list) }
    ensures start { (other_of notes.old.me.0).start ≡ (note_of notes.old.me.0).start }
{
    history.load::<Becomes<A>>(notes, 0);
}

fn read_both(history: &SharedHistory, notes: &mut HistorySeat)
    requires table { (notes.old.table_id ≡ history.now.table_id) × (history.now.table_id.words ≡ 1) }
    requires merging { notes.old.me ≡ (Merging (note_of notes.old.me.0) (other_of notes.old.me.0), []) }
    ensures same { notes.new.table_id ≡ notes.old.table_id }
    ensures view { notes.new.me ≡ (Noted (merged (note_of notes.old.me.0) (other_of notes.old.me.0)), []) }
    ensures first { IsPrefix (note_of notes.old.me.0).list (longer (note_of notes.old.me.0).list (other_of notes.old.me.0).list) }
    ensures other { IsPrefix (other_of notes.old.me.0).list (longer (note_of notes.old.me.0).list (other_of notes.old.me.0).list) }
    ensures start { (other_of notes.old.me.0).start ≡ (note_of notes.old.me.0).start }
{
    read_both_as::<Brand>(history, notes);
}

/// Makes one note of two. It says the longer of their lists, of which each is a beginning.
pub fn merge(history: &SharedHistory, first: HistoryBadge, other: HistoryBadge) -> HistoryBadge
    requires table { (first.table_id ≡ history.now.table_id) × (other.table_id ≡ history.now.table_id) × (history.now.table_id.words ≡ 1) }
    requires first { first.views ≡ Noted (note_in first.views) ∷ [] }
    requires other { other.views ≡ Noted (note_in other.views) ∷ [] }
    ensures table { result.table_id ≡ history.now.table_id }
    ensures note { result.views ≡ Noted (merged (note_in first.views) (note_in other.views)) ∷ [] }
    ensures front { IsPrefix (note_in first.views).list (note_in result.views).list }
    ensures told { IsPrefix (note_in other.views).list (note_in result.views).list }
    ensures start { (note_in other.views).start ≡ (note_in first.views).start }
{
    let mut seat = first.into_seat::<()>();
    take_other(history, &mut seat, other);
    read_both(history, &mut seat);
    seat.into_badge()
}
