//! What is decided of a call while its pass is held.

ghost use Rattle.std.specs.Prelude.{◌≡◌, ◌≤◌, true, List, [], ◌∷◌, ◌++◌, length};
ghost use Rattle.book_rows.specs.declared.rows.ActRow.{ActRow};
ghost use Rattle.record_history.specs.Limits.{most_acts};
ghost use Rattle.clerk_desk.specs.Below.office_step.Step.{step, is_fit_call};
ghost use Rattle.clerk_desk.specs.Serving.{ReplyCause};
ghost use Rattle.desk_history.specs.declared.views.View.TheVariants.{Holding};
ghost use Rattle.desk_history.specs.Seen.{holding_of};
ghost use Rattle.desk_history.specs.Rule.{IsHeld};
ghost use Rattle.shared_desk.specs.Deciding.{IsBetweenCalls, HoldsOn, Decides};

use crate::naming::Naming;
use crate::{histories_are_reached, histories_go_on};
use book_rows::ActRow;
use clerk_desk::office_core::office_answers::Reply;
use clerk_desk::office_core::office_laws::acts_give_the_book;
use clerk_desk::office_core::{Call, Office};
use clerk_desk::{Booking, book_call};
use days_core::Day;
use desk_history::{HistorySeat, SharedHistory, append, look, write_try};
use keeper_core::Keeper;
use record_history::{Dates, Record};
use std::alloc::Global;

/// Decides a call of the pass that is held, in a session of its number, while the clock shows the day. If the keeper was sent
/// rows and doesn't say that it kept them, they are written down as tried.
pub(crate) fn decide<K: Keeper, B: Naming>(
    alloc: Global,
    history: &SharedHistory,
    book: &mut HistorySeat,
    office: &mut Office,
    keeper: &mut K,
    session: u32,
    clock: Day,
    call: Call,
) -> Reply
    requires fit { is_fit_call call ≡ true }
    requires table { (book.old.table_id ≡ history.now.table_id) × (history.now.table_id.words ≡ 1) }
    requires holding { book.old.me ≡ (Holding (holding_of book.old.me.0), []) }
    requires number { session ≡ (holding_of book.old.me.0).pass.number }
    requires settled { IsBetweenCalls B.Naming K.Keeper office.old keeper.old (holding_of book.old.me.0).book }
    ensures table { book.new.table_id ≡ book.old.table_id }
    ensures holding { book.new.me ≡ (Holding (holding_of book.new.me.0), []) }
    ensures settled { IsBetweenCalls B.Naming K.Keeper office.new keeper.new (holding_of book.new.me.0).book }
    ensures held { IsHeld (holding_of book.new.me.0) }
    ensures holds_on { HoldsOn (holding_of book.old.me.0) (holding_of book.new.me.0) }
    ensures cause { ReplyCause (holding_of book.old.me.0).book.faults (holding_of book.new.me.0).book.faults result }
    ensures decides { Decides (step office.old.book office.old.capacity session clock call) office.old.book (holding_of book.old.me.0) (holding_of book.new.me.0) result }
{
    acts_give_the_book();
    histories_go_on();
    histories_are_reached();
    match book_call(alloc, office, keeper, session, clock, call) {
        Booking::Booked(done) => {
            let row: &ActRow = last_act(office);
            append(history, book, row);
            Reply::Accepted(done)
        }
        Booking::Unsent(reply) => {
            look(history, book, keeper);
            reply
        }
        Booking::Unkept(step, reply) => {
            write_try(history, book, step.batch(), keeper);
            step.let_go();
            reply
        }
    }
}

/// The row of the last act that the office has.
fn last_act(office: &Office) -> &ActRow
    requires { 1 ≤ length office.now.book.acts }
    ensures last { (earlier : List ActRow) (row : ActRow) → office.now.book.acts ≡ earlier ++ row ∷ [] → result.now ≡ row }
    ensures few { length office.now.book.acts ≤ most_acts }
{
    let acts = &office.tables().acts;
    &acts[acts.len() - 1]
}
