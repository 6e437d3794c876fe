//! A desk as its threads use it.

ghost use Rattle.std.specs.Prelude.{◌≡◌, ℕ, true, []};
ghost use mathlib.Core.List.{IsPrefix};
ghost use Rattle.clerk_desk.specs.Below.office_answers.{Answered.Answers, Answering.answer_to};
ghost use Rattle.clerk_desk.specs.Below.office_step.Step.{is_fit_call};
ghost use Rattle.clerk_desk.specs.Serving.{ReplyCause};
ghost use Rattle.desk_history.specs.Laws.{GoesOn};
ghost use Rattle.desk_history.specs.Moves.{noted, learned, merged};
ghost use Rattle.desk_history.specs.Seen.{entries_of, point_of};
ghost use Rattle.shared_desk.specs.History.{IsLegalHistory, tables_at};
ghost use Rattle.shared_desk.specs.Calls.{IsCalled, KnowsMore};

use crate::locked::{AskOutcome, Locked, Outcome};
use crate::naming::Naming;
use crate::pass::{Note, Pass};
use clerk_desk::office_core::{Call, Question};
use desk_history::{HistoryTable, learn, merge, write_note};
use keeper_core::Keeper;
use office_io::Clock;
use std::alloc::Global;
use std::marker::PhantomData;
use std::sync::{Mutex, MutexGuard, Wait};
use std::thread::yield_now;

/// How often a thread looks whether the lock is free before it sleeps: for some tenths of a millisecond at most.
const LOOKS: u32 = 400;

/// A desk as threads share it: the history, and behind a lock the office and its keeper.
#[derive(Drop)]
pub struct SharedDesk<K: Keeper + Drop, B: Naming> {
    pub(crate) history: HistoryTable,
    pub(crate) lock: Mutex<Locked<K, B>>,
    pub ghost named: { (history.shared.table_id ≡ B.table) × (B.table.words ≡ 1) },
}

impl<K: Keeper + Drop, B: Naming> SharedDesk<K, B> {
    /// Decides a call of the pass, on a day that the clock shows. It waits for the lock.
    ///
    /// A call's clerk is from 1 to 9,999 and its request from 1.
    pub fn call<R: Wait, C: Clock>(
        &self,
        rt: &R,
        alloc: Global,
        pass: &mut Pass<B>,
        call: Call,
        clock: &C,
    ) -> Outcome
        requires fit { is_fit_call call ≡ true }
        ensures goes_on { KnowsMore pass.old pass.new }
        ensures legal { IsLegalHistory pass.new.start pass.new.list }
        ensures point { result.point ≡ point_of pass.new }
        ensures called { (day : ℕ) × C.may_show clock.now day × IsCalled day call pass.old pass.new result.reply }
        ensures cause { ReplyCause pass.new.found pass.new.left result.reply }
    {
        let day = clock.today();
        let mut locked = self.locked(rt);
        locked.call(alloc, &self.history.shared, pass, call, day)
    }

    /// Answers a question of the pass. It waits for the lock.
    pub fn ask<R: Wait>(
        &self,
        rt: &R,
        alloc: Global,
        pass: &mut Pass<B>,
        question: &Question,
    ) -> AskOutcome
        ensures goes_on { GoesOn pass.old pass.new [] [] }
        ensures legal { IsLegalHistory pass.new.start pass.new.list }
        ensures point { result.point ≡ point_of pass.new }
        ensures answered { Answers (answer_to (tables_at pass.new.start pass.new.list) question.now) result.answer }
    {
        let mut held = self.locked(rt);
        held.ask(alloc, &self.history.shared, pass, question)
    }

    /// Takes the lock. Most acts take no longer than a thread takes to wake, so one that waits looks again for a while, and
    /// lets others run, before it sleeps.
    fn locked<R: Wait>(&self, rt: &R) -> MutexGuard<'_, Locked<K, B>> {
        for _ in 0..LOOKS {
            if let Some(locked) = self.lock.try_lock() {
                return locked;
            }
            yield_now();
        }
        self.lock.lock(rt)
    }

    /// Writes down what the pass has seen. It doesn't wait.
    pub fn note(&self, pass: &mut Pass<B>) -> Note<B>
        ensures same { pass.new ≡ pass.old }
        ensures note { result ≡ noted pass.old }
    {
        let badge = write_note(&self.history.shared, &mut pass.badge);
        Note {
            badge,
            seen: pass.seen,
            of: PhantomData,
        }
    }

    /// Lets the pass see what the note says: of what the two have seen the longer, which the other begins. It doesn't wait.
    pub fn learn(&self, pass: &mut Pass<B>, note: Note<B>)
        ensures pass { pass.new ≡ learned pass.old note }
        ensures front { IsPrefix pass.old.list pass.new.list }
        ensures told { IsPrefix note.list pass.new.list }
        ensures own { entries_of pass.new.number pass.new.list ≡ entries_of pass.old.number pass.old.list }
        ensures start { note.start ≡ pass.old.start }
    {
        let Note { badge, seen, of: _ } = note;
        learn(&self.history.shared, &mut pass.badge, badge);
        if pass.seen < seen {
            pass.seen = seen;
        }
    }

    /// Makes one note of two: of what they say the longer, which the other begins. It doesn't wait.
    pub fn merge(&self, first: Note<B>, other: Note<B>) -> Note<B>
        ensures note { result ≡ merged first other }
        ensures front { IsPrefix first.list result.list }
        ensures told { IsPrefix other.list result.list }
        ensures start { other.start ≡ first.start }
    {
        let badge = merge(&self.history.shared, first.badge, other.badge);
        let seen = first.seen.max(other.seen);
        Note {
            badge,
            seen,
            of: PhantomData,
        }
    }
}
