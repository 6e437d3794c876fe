//! One clerk's calls, each kept before it is answered.

ghost use Rattle.std.specs.Prelude.{◌≡◌, true};
ghost use Rattle.office_core.specs.Below.office_step.Step.{step, is_fit_call};
ghost use Rattle.clerk_desk.specs.OpenBook.{IsOpen, StaysOpen};
ghost use Rattle.clerk_desk.specs.Serving.{Serves, ReplyCause, ServeCrash, ComesTo, book_after, reply_to};

use days_core::Day;
use keeper_core::{Committed, Keeper};
use office_core::office_answers::Reply;
use office_core::office_laws::batches_follow;
use office_core::{Call, Done, Judged, Judgment, Office, Step};
use record_history::{Dates, Record};
use std::alloc::Global;

/// What came of a call.
#[derive(Drop)]
pub enum Booking {
    /// A new act: its rows were kept, and then appended.
    Booked(Done),
    /// The keeper was sent nothing. The reply is to a repeat, or refuses, or memory ran out.
    Unsent(Reply),
    /// The keeper was sent the rows of a new act, and did not say it kept them.
    Unkept(Step, Reply),
}

/// What the office replies to a call in a session, while the clock shows the day. The rows of a new act are kept before
/// the office has them.
pub fn serve<K: Keeper>(
    alloc: Global,
    office: &mut Office,
    keeper: &mut K,
    session: u32,
    clock: Day,
    call: Call,
) -> Reply
    requires fit { is_fit_call call ≡ true }
    requires told { IsOpen K.Keeper office.old keeper.old }
    ensures served { Serves (step office.old.book office.old.capacity session clock call) office.old.book office.new.book result }
    ensures stays { StaysOpen K.Keeper office.old keeper.old office.new keeper.new }
    ensures cause { ReplyCause (K.faults keeper.old) (K.faults keeper.new) result }
    ensures crash { K.tells_crash keeper.new → ServeCrash office.old.capacity
        (book_after office.old.book (step office.old.book office.old.capacity session clock call))
        office.old.book office.new.book (K.holds keeper.new) (K.leaves keeper.old) (K.leaves keeper.new) result }
{
    match book_call(alloc, office, keeper, session, clock, call) {
        Booking::Booked(done) => Reply::Accepted(done),
        Booking::Unsent(reply) => reply,
        Booking::Unkept(step, reply) => {
            step.let_go();
            reply
        }
    }
}

/// Books a call, if the office accepts it, and says what came of it. All memory that the office needs for a new act is there
/// before the keeper is asked.
#[tactic(auto, using(crate::proofs::Staying::stays))]
pub fn book_call<K: Keeper>(
    alloc: Global,
    office: &mut Office,
    keeper: &mut K,
    session: u32,
    clock: Day,
    call: Call,
) -> Booking
    requires fit { is_fit_call call ≡ true }
    requires told { IsOpen K.Keeper office.old keeper.old }
    ensures came { ComesTo K.Keeper (step office.old.book office.old.capacity session clock call) office.old keeper.old office.new keeper.new result }
    ensures served { Serves (step office.old.book office.old.capacity session clock call) office.old.book office.new.book (reply_to result) }
    ensures stays { StaysOpen K.Keeper office.old keeper.old office.new keeper.new }
    ensures cause { ReplyCause (K.faults keeper.old) (K.faults keeper.new) (reply_to result) }
    ensures crash { K.tells_crash keeper.new → ServeCrash office.old.capacity
        (book_after office.old.book (step office.old.book office.old.capacity session clock call))
        office.old.book office.new.book (K.holds keeper.new) (K.leaves keeper.old) (K.leaves keeper.new) (reply_to result) }
{
    batches_follow();
    let _of_an_office = office.tables();
    match office.plan_step(alloc, session, clock, call) {
        Ok(Judged::Repeat(done)) => Booking::Unsent(Reply::Accepted(done)),
        Ok(Judged::New(step)) => {
            let Ok(()) = office.reserve(&step) else {
                step.let_go();
                return Booking::Unsent(Reply::NoMemory);
            };
            match keeper.commit(alloc, step.batch()) {
                Committed::Done => Booking::Booked(office.apply(step)),
                Committed::Failed => Booking::Unkept(step, Reply::StoreFault),
                Committed::NoMemory => Booking::Unkept(step, Reply::NoMemory),
            }
        }
        Err(Judgment::Refused(refusal)) => Booking::Unsent(Reply::Refused(refusal)),
        Err(Judgment::NoMemory) => Booking::Unsent(Reply::NoMemory),
    }
}
