//! A planned step is appended to the book. No memory is taken.

use crate::reply::{certified_by, closed};
use crate::{Office, Step};
use book_replay::book_search::act_key;
use book_replay::office_laws::{
    appended_is_accepted, books_are_kept, known_after_each_act, new_replies, within_room,
};
use book_rows::{ActRow, Command};
use office_answers::office_step::{Application, Done, Made};
use plain_data::NoMemory;
use record_history::{Dates, Record};
use row_index::index_grows;
use voucher_core::Line;

impl Office {
    ghost use Rattle.std.specs.Prelude.{◌≡◌, ◌≤◌, ◌+◌, length, OnOk, IfSome};
    ghost use Rattle.book_rows.specs.Book.{appended};
    ghost use Rattle.office_answers.specs.Below.office_step.Known.{known_of};
    ghost use Rattle.office_answers.specs.Below.office_step.Reply.{done_of};
    ghost use Rattle.book_replay.specs.Below.office_laws.AtHand.{made_now};
    ghost use Rattle.office_core.specs.Planned.{IsPlannedFor};
    ghost use Rattle.office_core.specs.Office.{HasRoomFor};
    ghost use Rattle.record_history.specs.Limits.{most_lines};

    /// Appends the rows of a step that was planned for the office as it is, and replies. It takes no memory.
    pub fn apply(&mut self, step: Step) -> Done
        requires planned { IsPlannedFor self.old.capacity self.old.book step }
        requires room { HasRoomFor self.old.room step }
        ensures book { self.new.book ≡ appended self.old.book step.rows }
        ensures capacity { self.new.capacity ≡ self.old.capacity }
        ensures done { result ≡ done_of self.new.book step.rows.act }
    {
        let done = self.done_now(&step);
        self.append(step);
        done
    }

    /// The reply to the act of the step, once its rows are there.
    fn done_now(&self, step: &Step) -> Done
        requires { IsPlannedFor self.now.capacity self.now.book step.now }
        ensures { result ≡ done_of (appended self.now.book step.now.rows) step.now.rows.act }
    {
        new_replies();
        let _known = &self.capacity;
        let made = self.made_now(step);
        Done {
            act: step.batch.act.n,
            day: step.batch.act.day,
            made,
        }
    }

    fn made_now(&self, step: &Step) -> Made
        requires { IsPlannedFor self.now.capacity self.now.book step.now }
        ensures { result ≡ made_now (known_of self.now.book) step.now.rows step.now.asked }
    {
        match &step.asked {
            Command::Unit(_) => Made::Unit(self.register.units() + 1),
            Command::Apply(_) => Made::Applicant(self.register.applications().len() as u32 + 1),
            Command::Close(close) => closed(self.lines_planned(step), close.month),
            _ => certified_by(step.batch.made.as_ref()),
        }
    }

    fn lines_planned<'s>(&self, step: &'s Step) -> &'s [Line]
        requires { IsPlannedFor self.now.capacity self.now.book step.now }
        ensures lines { result.now ≡ step.now.rows.lines }
        ensures few { length result.now ≤ most_lines }
    {
        within_room();
        let _known = &self.capacity;
        step.batch.lines.as_slice()
    }

    pub(crate) fn append(&mut self, step: Step)
        requires planned { IsPlannedFor self.old.capacity self.old.book step }
        requires room { HasRoomFor self.old.room step }
        ensures book { self.new.book ≡ appended self.old.book step.rows }
        ensures capacity { self.new.capacity ≡ self.old.capacity }
    {
        appended_is_accepted();
        books_are_kept();
        known_after_each_act();
        index_grows::<ActRow>();
        let Step { batch, asked, name } = step;
        let made = batch.made;
        let place = self.acts();
        self.requests
            .insert(act_key(batch.act.clerk, batch.act.request), place);
        self.tables.append(batch);
        self.register.note(asked, name, made);
    }

    /// How many acts the book holds.
    fn acts(&self) -> usize
        ensures { result ≡ length self.now.book.acts }
    {
        self.tables.acts.len()
    }
}
