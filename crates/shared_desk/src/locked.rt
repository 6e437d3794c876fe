//! What lies behind the lock of a desk, and what is done while it is held.

ghost use Rattle.std.specs.Prelude.{◌≡◌, ℕ, ◌+◌, true, [], All, length};
ghost use Rattle.clerk_desk.specs.Below.office_answers.{Answered.Answers, Answering.answer_to};
ghost use Rattle.clerk_desk.specs.Below.office_step.Step.{is_fit_call};
ghost use Rattle.clerk_desk.specs.Serving.{ReplyCause};
ghost use Rattle.desk_history.specs.Laws.{GoesOn};
ghost use Rattle.desk_history.specs.declared.views.Start.{Start};
ghost use Rattle.desk_history.specs.Seen.{point_of};
ghost use Rattle.shared_desk.specs.History.{IsLegalHistory, tables_at};
ghost use Rattle.shared_desk.specs.Calls.{IsCalled, KnowsMore};
ghost use Rattle.shared_desk.specs.Desk.{HasItsOwn, IsFinished};
ghost use Rattle.shared_desk.specs.Passes.{AreFresh};
ghost use Rattle.book_rows.specs.Book.{book_of};

use crate::deciding::decide;
use crate::histories_are_reached;
use crate::naming::Naming;
use crate::opened::Finished;
use crate::pass::Pass;
use clerk_desk::office_core::office_answers::Reply;
use clerk_desk::office_core::office_laws::acts_give_the_book;
use clerk_desk::office_core::{Answer, Asked, Call, Office, Question};
use days_core::Day;
use desk_history::{
    HistorySeat, HistoryTable, SharedHistory, come_in, entries_are_those_of_the_number, finish,
    go_back, look, passes_go_on,
};
use keeper_core::Keeper;
use std::alloc::Global;
use std::collections::VecDeque;
use std::marker::{Model, PhantomData};

/// What the lock keeps: the office, its keeper, and the book of the history.
#[derive(Drop)]
pub struct Locked<K: Keeper + Drop, B: Naming> {
    pub(crate) office: Office,
    pub(crate) keeper: K,
    pub(crate) book: HistorySeat,
    pub(crate) of: PhantomData<B>,
}

impl<K: Keeper + Drop, B: Naming> Model for Locked<K, B> {
    ghost use Rattle.std.specs.Prelude.{◌≡◌, []};
    ghost use Rattle.desk_history.specs.declared.views.View.TheVariants.{Free};
    ghost use Rattle.desk_history.specs.Seen.{book_of};
    ghost use Rattle.shared_desk.specs.Deciding.{IsBetweenCalls};
    ghost use Rattle.shared_desk.specs.Calls.{Locking};

    ghost Value = { Locking K };

    ghost view = { λ locked. record { book = book_of locked.book.me.0; keeper = locked.keeper } };

    ghost invariant = { λ locked. (locked.book.table_id ≡ B.table) × (locked.book.me ≡ (Free (book_of locked.book.me.0), [])) × IsBetweenCalls B.Naming K.Keeper locked.office locked.keeper (book_of locked.book.me.0) × (B.table.words ≡ 1) × ((book_of locked.book.me.0).next ≡ 33) };
}

/// What a session is told of a call.
#[derive(Drop)]
pub struct Outcome {
    /// The number of acts in the book.
    pub point: u32,
    pub reply: Reply,
}

/// What a session is told of a question.
#[derive(Drop)]
pub struct AskOutcome {
    /// The number of acts in the book.
    pub point: u32,
    pub answer: Result<Answer, Asked>,
}

/// How many acts the office's book has.
pub(crate) fn acts_held(office: &Office) -> u32
    ensures { result ≡ length office.now.book.acts }
{
    office.tables().acts.len() as u32
}

impl<K: Keeper + Drop, B: Naming> Locked<K, B> {
    /// Decides a call of the pass, while the clock shows the day.
    pub(crate) fn call(
        &mut self,
        alloc: Global,
        history: &SharedHistory,
        pass: &mut Pass<B>,
        call: Call,
        clock: Day,
    ) -> Outcome
        requires fit { is_fit_call call ≡ true }
        requires table { history.now.table_id ≡ B.table }
        ensures goes_on { KnowsMore pass.old pass.new }
        ensures legal { IsLegalHistory pass.new.start pass.new.list }
        ensures point { result.point ≡ point_of pass.new }
        ensures called { IsCalled clock call pass.old pass.new result.reply }
        ensures cause { ReplyCause pass.new.found pass.new.left result.reply }
    {
        acts_give_the_book();
        histories_are_reached();
        passes_go_on();
        come_in(history, &mut self.book, &mut pass.badge);
        let reply = decide::<K, B>(
            alloc,
            history,
            &mut self.book,
            &mut self.office,
            &mut self.keeper,
            pass.number,
            clock,
            call,
        );
        pass.badge = go_back(history, &mut self.book);
        let point = acts_held(&self.office);
        pass.seen = point;
        Outcome { point, reply }
    }

    /// Answers a question of the pass.
    pub(crate) fn ask(
        &mut self,
        alloc: Global,
        history: &SharedHistory,
        pass: &mut Pass<B>,
        question: &Question,
    ) -> AskOutcome
        requires table { history.now.table_id ≡ B.table }
        ensures goes_on { GoesOn pass.old pass.new [] [] }
        ensures legal { IsLegalHistory pass.new.start pass.new.list }
        ensures point { result.point ≡ point_of pass.new }
        ensures answered { Answers (answer_to (tables_at pass.new.start pass.new.list) question.now) result.answer }
    {
        histories_are_reached();
        passes_go_on();
        come_in(history, &mut self.book, &mut pass.badge);
        look(history, &mut self.book, &self.keeper);
        pass.badge = go_back(history, &mut self.book);
        let point = acts_held(&self.office);
        pass.seen = point;
        AskOutcome {
            point,
            answer: self.office.ask(alloc, question),
        }
    }

    /// Takes a pass in for good.
    fn retire(&mut self, history: &SharedHistory, pass: Pass<B>)
        requires table { history.now.table_id ≡ B.table }
        ensures same { self.new ≡ self.old }
        ensures own { HasItsOwn self.old.book.list self.old.book.tried pass }
    {
        let Pass { mut badge, .. } = pass;
        come_in(history, &mut self.book, &mut badge);
        look(history, &mut self.book, &self.keeper);
        let _retired = go_back(history, &mut self.book);
    }

    /// Takes these passes in for good.
    pub(crate) fn retire_each(&mut self, history: &SharedHistory, mut passes: VecDeque<Pass<B>>)
        requires table { history.now.table_id ≡ B.table }
        ensures same { self.new ≡ self.old }
        ensures own { All (HasItsOwn self.old.book.list self.old.book.tried) passes.items }
    {
        while let Some(pass) = passes.pop_front() {
            self.retire(history, pass);
        }
    }

    /// Ends the desk with a pass, and gives back the tables and the keeper. The passes that wait were not handed out.
    pub(crate) fn finish(
        mut self,
        history: HistoryTable,
        waiting: VecDeque<Pass<B>>,
        pass: Pass<B>,
    ) -> Finished<K>
        requires table { history.shared.table_id ≡ B.table }
        ensures { (start : Start) (made : ℕ) → AreFresh start (made + 1) waiting.items → made + length waiting.items ≡ 32 →
            (end : IsFinished pass made (book_of result.tables) B.told (K.holds result.keeper) (K.is_well result.keeper) B.sound (K.tells_crash result.keeper) (K.leaves result.keeper))
            × (end.history ≡ self.book.list) × (end.tried ≡ self.book.tried) }
    {
        entries_are_those_of_the_number();
        self.retire_each(&history.shared, waiting);
        let Locked {
            office,
            keeper,
            book,
            of: _,
        } = self;
        finish(history, book, pass.badge, &keeper);
        Finished {
            tables: office.into_tables(),
            keeper,
        }
    }
}
