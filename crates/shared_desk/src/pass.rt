//! Passes and notes.

use crate::naming::Naming;
use desk_history::HistoryBadge;
use std::marker::{Model, PhantomData};

/// What one session knows of a desk, and the right to call and ask in its number. It is used with the desk that made it.
///
/// Contracts see its number, the start of the desk, the acts that it has seen since, the rows of its calls that the keeper was
/// sent and did not say it kept, and the keeper's faults as its last call found and left them.
#[derive(Drop)]
pub struct Pass<B: Naming> {
    pub(crate) badge: HistoryBadge,
    pub(crate) number: u32,
    pub(crate) seen: u32,
    pub(crate) of: PhantomData<B>,
}

impl<B: Naming> Model for Pass<B> {
    ghost use Rattle.std.specs.Prelude.{◌≡◌, [], ◌∷◌};
    ghost use Rattle.desk_history.specs.declared.views.PassView.{PassView};
    ghost use Rattle.desk_history.specs.declared.views.View.TheVariants.{Home};
    ghost use Rattle.desk_history.specs.Seen.{pass_in, point_of};

    ghost Value = { PassView };

    ghost view = { λ pass. pass_in pass.badge.views };

    ghost invariant = { λ pass. (pass.badge.table_id ≡ B.table) × (pass.badge.views ≡ Home (pass_in pass.badge.views) ∷ []) × (pass.number ≡ (pass_in pass.badge.views).number) × (pass.seen ≡ point_of (pass_in pass.badge.views)) };
}

impl<B: Naming> Pass<B> {
    ghost use Rattle.std.specs.Prelude.{◌≡◌};
    ghost use Rattle.desk_history.specs.Seen.{point_of};

    /// The number of the session, from 1.
    pub fn number(&self) -> u32
        ensures { result ≡ self.now.number }
    {
        self.number
    }

    /// The number of acts in the book that it has seen.
    pub fn seen(&self) -> u32
        ensures { result ≡ point_of self.now }
    {
        self.seen
    }
}

/// What a pass had seen when it was written. It is used with the desk that made it.
#[derive(Drop)]
pub struct Note<B: Naming> {
    pub(crate) badge: HistoryBadge,
    pub(crate) seen: u32,
    pub(crate) of: PhantomData<B>,
}

impl<B: Naming> Model for Note<B> {
    ghost use Rattle.std.specs.Prelude.{◌≡◌, ◌+◌, [], ◌∷◌, length};
    ghost use Rattle.desk_history.specs.declared.views.NoteView.{NoteView};
    ghost use Rattle.desk_history.specs.declared.views.View.TheVariants.{Noted};
    ghost use Rattle.desk_history.specs.Seen.{note_in};

    ghost Value = { NoteView };

    ghost view = { λ note. note_in note.badge.views };

    ghost invariant = { λ note. (note.badge.table_id ≡ B.table) × (note.badge.views ≡ Noted (note_in note.badge.views) ∷ []) × (note.seen ≡ length (note_in note.badge.views).start.opening.acts + length (note_in note.badge.views).list) };
}
