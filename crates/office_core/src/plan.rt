//! A call is judged without a change, for an office as it is.

use crate::drafting::{BookLimits, last_day, new_step};
use crate::{Judged, Judgment, Office, Step};
use book_replay::book_search::act_of_request;
use book_replay::command_text::body_of_command;
use book_replay::office_laws::{days_are_lived, within_room};
use book_rows::ActRow;
use days_core::Day;
use office_answers::office_step::Call;
use plain_data::NoMemory;
use record_history::{Dates, Record};
use std::alloc::Global;

impl Office {
    ghost use Rattle.std.specs.Prelude.{◌≡◌, ◌≤◌, ℕ, true, None, Some, length, find, IfOk};
    ghost use Rattle.days_core.specs.OfficeDays.{last_office_day};
    ghost use Rattle.office_answers.specs.Below.office_step.Refusals.{is_request_of};
    ghost use Rattle.office_answers.specs.Below.office_step.Step.{step, last_act_day, is_fit_call};
    ghost use Rattle.office_core.specs.Judged.{Judges, PlansFor};
    ghost use Rattle.record_history.specs.Limits.{most_acts};

    /// What the office does with a call in a session, while the clock shows the day. Nothing is kept of it yet.
    ///
    /// A call's clerk is from 1 to 9,999 and its request from 1.
    pub fn plan_step(
        &self,
        alloc: Global,
        session: u32,
        clock: Day,
        call: Call,
    ) -> Result<Judged, Judgment>
        requires fit { is_fit_call call ≡ true }
        ensures judged { Judges (step self.now.book self.now.capacity session clock call) result }
        ensures planned { IfOk result (λ judged. PlansFor self.now.capacity self.now.book judged) }
    {
        match act_of_request(&self.tables.acts, &self.requests, call.clerk, call.request) {
            Some(row) => self.repeated(alloc, row, call),
            None => self.planned(alloc, session, clock, call),
        }
    }

    /// The answer to a call whose clerk and request an act has.
    fn repeated(&self, alloc: Global, row: &ActRow, call: Call) -> Result<Judged, Judgment>
        requires fit { is_fit_call call ≡ true }
        requires found { find (is_request_of call.clerk call.request) self.now.book.acts ≡ Some row.now }
        ensures judged { (session clock : ℕ) → Judges (step self.now.book self.now.capacity session clock call) result }
        ensures planned { IfOk result (λ judged. PlansFor self.now.capacity self.now.book judged) }
    {
        let answer = self.compared(alloc, row, &call);
        call.let_go();
        answer
    }

    /// The answer, by the texts of both commands.
    fn compared(&self, alloc: Global, row: &ActRow, call: &Call) -> Result<Judged, Judgment>
        requires fit { is_fit_call call.now ≡ true }
        requires found { find (is_request_of call.now.clerk call.now.request) self.now.book.acts ≡ Some row.now }
        ensures judged { (session clock : ℕ) → Judges (step self.now.book self.now.capacity session clock call.now) result }
        ensures planned { IfOk result (λ judged. PlansFor self.now.capacity self.now.book judged) }
    {
        match body_of_command(alloc, &call.command) {
            Ok(body) => self.answered(row, &body, call),
            Err(NoMemory) => Err(Judgment::NoMemory),
        }
    }

    /// The answer to a call of whose clerk and request there is no act. The office keeps the command that it is given.
    fn planned(
        &self,
        alloc: Global,
        session: u32,
        clock: Day,
        call: Call,
    ) -> Result<Judged, Judgment>
        requires fit { is_fit_call call ≡ true }
        requires is_new { find (is_request_of call.clerk call.request) self.now.book.acts ≡ None }
        ensures judged { Judges (step self.now.book self.now.capacity session clock call) result }
        ensures planned { IfOk result (λ judged. PlansFor self.now.capacity self.now.book judged) }
    {
        let held = self.held();
        match new_step(alloc, &self.register, &held, session, clock, call, None) {
            Ok(step) => Ok(Judged::New(step)),
            Err(judgment) => Err(judgment),
        }
    }

    /// How much the book holds, and the day of its last act.
    fn held(&self) -> BookLimits
        ensures capacity { result.capacity ≡ self.now.capacity }
        ensures last { result.last ≡ last_act_day self.now.book.acts }
        ensures lines { result.lines ≡ length self.now.book.lines }
        ensures most { result.capacity.acts ≤ most_acts }
        ensures lived { result.last ≤ last_office_day }
    {
        within_room();
        days_are_lived();
        BookLimits {
            capacity: self.capacity,
            last: last_day(&self.tables.acts),
            lines: self.tables.lines.len() as u32,
        }
    }
}
