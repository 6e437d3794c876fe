//! The acts of given tables are done again, one after another.

use crate::drafting::{BookLimits, last_day, new_step};
use crate::reserve::household_of;
use crate::{Judgment, OpenFault, Step};
use book_replay::book_search::{act_key, act_of_request};
use book_replay::office_laws::{
    appended_is_accepted, books_are_kept, days_are_lived, known_after_each_act, next_records,
    requests_are_once, within_room,
};
use book_replay::{StoredRows, call_of};
use book_rows::{ActRow, Batch, Table};
use office_answers::office_register::Register;
use office_answers::office_step::{Call, Capacity, Fault};
use plain_data::NoMemory;
use record_history::{Dates, Record};
use row_index::{RowIndex, index_grows};
use std::alloc::Global;
use voucher_core::Line;

/// What an office knows by the acts of tables that it has done again, whose rows stay where they are.
#[derive(Drop)]
pub struct Replay {
    pub capacity: Capacity,
    pub register: Register,
    pub requests: RowIndex,
    /// How many lines these acts made.
    pub lines: u32,
}

impl Replay {
    ghost use Rattle.std.specs.Prelude.{◌≡◌, ◌≤◌, true, None, Some, length, find, IfOk, IfErr, IfSome, OnOk};
    ghost use Rattle.std.specs.Option.{option_map};
    ghost use Rattle.record_history.specs.Held.{room_of};
    ghost use Rattle.book_rows.specs.Book.{Book, empty_book, appended};
    ghost use Rattle.office_answers.specs.Below.office_step.Refusals.{is_request_of};
    ghost use Rattle.office_answers.specs.Below.office_step.Step.{step as step_of, last_act_day, is_fit_call};
    ghost use Rattle.office_answers.specs.Below.office_step.Valid.{rows_in, replayed, difference, with_rows};
    ghost use Rattle.book_replay.specs.Texts.{IsTextOf};
    ghost use Rattle.office_core.specs.Opening.{IsNamed};
    ghost use Rattle.office_core.specs.Planned.{IsPlannedFor};
    ghost use Rattle.office_core.specs.Replaying.{IsReplay, HasRoomIn};
    ghost use Rattle.record_history.specs.Limits.{most_acts, most_lines};

    /// What is known before the first act.
    pub fn new(alloc: Global, capacity: Capacity) -> Result<Replay, NoMemory>
        requires acts { capacity.acts ≤ most_acts }
        requires lines { capacity.lines ≤ most_lines }
        ensures known { IfOk result (λ replay. IsReplay replay empty_book) }
        ensures capacity { IfOk result (λ replay. replay.capacity ≡ capacity) }
    {
        Ok(Replay {
            capacity,
            register: Register::new(alloc)?,
            requests: RowIndex::new(alloc),
            lines: 0,
        })
    }

    /// Frees it.
    pub fn let_go(self) {}

    /// Does the act of the tables again that comes after those done, unless its rows differ.
    pub fn redo(
        &mut self,
        alloc: Global,
        given: &StoredRows,
        done: &[ActRow],
        row: &ActRow,
    ) -> Result<(), OpenFault>
        ghost book: { Book }
        requires known { IsReplay self.old book }
        requires done { done.now ≡ book.acts }
        ensures capacity { self.new.capacity ≡ self.old.capacity }
        ensures named { IfErr result (IsNamed (difference given.now row.now (replayed self.old.capacity book row.now))) }
        ensures goes_on { OnOk result (difference given.now row.now (replayed self.old.capacity book row.now) ≡ None) }
        ensures known { OnOk result (IsReplay self.new (with_rows book (replayed self.old.capacity book row.now))) }
    {
        match self.planned_again(alloc, done, row) {
            Ok(Some(step)) => self.redo_step(given, row, step),
            Ok(None) => Err(OpenFault::BadBook(Fault {
                table: Table::Acts,
                act: row.n,
            })),
            Err(_) => Err(OpenFault::NoMemory),
        }
    }

    /// The step of the row's session, day and call, if the office appends anything for them.
    fn planned_again(
        &self,
        alloc: Global,
        done: &[ActRow],
        row: &ActRow,
    ) -> Result<Option<Step>, NoMemory>
        ghost book: { Book }
        requires known { IsReplay self.now book }
        requires done { done.now ≡ book.acts }
        ensures rows { IfOk result (λ step. option_map (λ step. step.rows) step ≡ replayed self.now.capacity book row.now) }
        ensures planned { IfOk result (λ step. IfSome step (IsPlannedFor self.now.capacity book)) }
    {
        match call_of(alloc, row)? {
            Some(call) => self.planned_call(alloc, done, row, call),
            None => Ok(None),
        }
    }

    fn planned_call(
        &self,
        alloc: Global,
        done: &[ActRow],
        row: &ActRow,
        call: Call,
    ) -> Result<Option<Step>, NoMemory>
        ghost book: { Book }
        requires known { IsReplay self.now book }
        requires done { done.now ≡ book.acts }
        requires fit { is_fit_call call ≡ true }
        requires text { IsTextOf call.command row.now.body }
        ensures rows { IfOk result (λ step. option_map (λ step. step.rows) step ≡ rows_in (step_of book self.now.capacity row.now.session row.now.day call)) }
        ensures planned { IfOk result (λ step. IfSome step (IsPlannedFor self.now.capacity book)) }
    {
        requests_are_once();
        match act_of_request(done, &self.requests, call.clerk, call.request) {
            Some(_) => {
                call.let_go();
                Ok(None)
            }
            None => self.planned_new(alloc, done, row, call),
        }
    }

    /// The step of a call of whose clerk and request no act is done.
    fn planned_new(
        &self,
        alloc: Global,
        done: &[ActRow],
        row: &ActRow,
        call: Call,
    ) -> Result<Option<Step>, NoMemory>
        ghost book: { Book }
        requires known { IsReplay self.now book }
        requires done { done.now ≡ book.acts }
        requires fit { is_fit_call call ≡ true }
        requires text { IsTextOf call.command row.now.body }
        requires is_new { find (is_request_of call.clerk call.request) book.acts ≡ None }
        ensures rows { IfOk result (λ step. option_map (λ step. step.rows) step ≡ rows_in (step_of book self.now.capacity row.now.session row.now.day call)) }
        ensures planned { IfOk result (λ step. IfSome step (IsPlannedFor self.now.capacity book)) }
    {
        days_are_lived();
        let held = self.held(done);
        match new_step(
            alloc,
            &self.register,
            &held,
            row.session,
            row.day,
            call,
            Some(&row.body),
        ) {
            Ok(step) => Ok(Some(step)),
            Err(Judgment::Refused(_)) => Ok(None),
            Err(Judgment::NoMemory) => Err(NoMemory),
        }
    }

    /// How much the acts that are done hold, and the day of the last.
    fn held(&self, done: &[ActRow]) -> BookLimits
        ensures { result ≡ record { capacity = self.now.capacity; last = last_act_day done.now; lines = self.now.lines } }
    {
        BookLimits {
            capacity: self.capacity,
            last: last_day(done),
            lines: self.lines,
        }
    }

    fn redo_step(&mut self, given: &StoredRows, row: &ActRow, step: Step) -> Result<(), OpenFault>
        ghost book: { Book }
        requires known { IsReplay self.old book }
        requires planned { IsPlannedFor self.old.capacity book step }
        ensures capacity { self.new.capacity ≡ self.old.capacity }
        ensures named { IfErr result (IsNamed (difference given.now row.now (Some step.rows))) }
        ensures goes_on { OnOk result (difference given.now row.now (Some step.rows) ≡ None) }
        ensures known { OnOk result (IsReplay self.new (appended book step.rows)) }
    {
        match self.fault_of_step(given, row, &step) {
            Some(fault) => {
                step.let_go();
                Err(fault)
            }
            None => {
                self.note(step);
                Ok(())
            }
        }
    }

    /// Where the rows of the step differ from those of the tables, or that there is no room for what is known by it.
    fn fault_of_step(&mut self, given: &StoredRows, row: &ActRow, step: &Step) -> Option<OpenFault>
        ghost book: { Book }
        requires known { IsReplay self.old book }
        requires planned { IsPlannedFor self.old.capacity book step.now }
        ensures capacity { self.new.capacity ≡ self.old.capacity }
        ensures known { IsReplay self.new book }
        ensures named { IfSome result (IsNamed (difference given.now row.now (Some step.now.rows))) }
        ensures same { result ≡ None → difference given.now row.now (Some step.now.rows) ≡ None }
        ensures room { result ≡ None → HasRoomIn self.new step.now }
    {
        if let Some(fault) = given.difference(row, Some(step.batch())) {
            return Some(OpenFault::BadBook(fault));
        }
        match self.reserve(step) {
            Ok(()) => None,
            Err(NoMemory) => Some(OpenFault::NoMemory),
        }
    }

    /// Makes room for what is known by the step.
    fn reserve(&mut self, step: &Step) -> Result<(), NoMemory>
        ghost book: { Book }
        requires known { IsReplay self.old book }
        requires planned { IsPlannedFor self.old.capacity book step.now }
        ensures capacity { self.new.capacity ≡ self.old.capacity }
        ensures known { IsReplay self.new book }
        ensures room { OnOk result (HasRoomIn self.new step.now) }
    {
        appended_is_accepted();
        next_records();
        self.register.reserve(household_of(&step.batch.made))?;
        self.requests.reserve()?;
        Ok(())
    }

    /// Knows of the act of the step too. It takes no memory, and frees the rows.
    fn note(&mut self, step: Step)
        ghost book: { Book }
        requires known { IsReplay self.old book }
        requires planned { IsPlannedFor self.old.capacity book step }
        requires room { HasRoomIn self.old step }
        ensures capacity { self.new.capacity ≡ self.old.capacity }
        ensures known { IsReplay self.new (appended book step.rows) }
    {
        appended_is_accepted();
        books_are_kept();
        known_after_each_act();
        index_grows::<ActRow>();
        within_room();
        let Step { batch, asked, name } = step;
        let made = batch.made;
        let place = self.register.count() as usize;
        self.requests
            .insert(act_key(batch.act.clerk, batch.act.request), place);
        self.lines += batch.lines.as_slice().len() as u32;
        self.register.note(asked, name, made);
    }
}
