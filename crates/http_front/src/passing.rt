//! A message is answered by a desk that is shared.

ghost use Rattle.std.specs.Prelude.{◌≡◌, true, false, IfOk};
ghost use Rattle.clerk_desk.specs.Below.office_step.Step.{is_fit_call};
ghost use Rattle.json_front.specs.Calls.{call_from};
ghost use Rattle.http_session.specs.Replies.{refuses};
ghost use Rattle.shared_desk.specs.Calls.{Further};
ghost use Rattle.http_front.specs.Passes.{AnswersPass, SaysAnswer, SaysBody, SaysCall, SaysTo};

use crate::asking::{lead, said_of_answer, said_of_bad_form};
use crate::draft::{NoReply, ReplyDraft};
use crate::replying::{refused, replied, said_of_reply};
use clerk_desk::office_answers::Question;
use clerk_desk::office_core::Call;
use http_messages::Message;
use http_responses::{Refusal, Reply};
use http_routes::{Routed, Routes};
use json_form::FormFault;
use json_front::call_of_bytes;
use keeper_core::Keeper;
use office_io::Clock;
use shared_desk::{Naming, Pass, SharedDesk};
use std::alloc::Global;
use std::sync::Wait;

/// The reply of a shared desk to a message of a pass. There always is one: its body takes no memory where that ran out.
pub(crate) fn answer_for_pass<R: Wait, K: Keeper + Drop, B: Naming, C: Clock>(
    rt: &R,
    alloc: Global,
    routes: &Routes,
    desk: &SharedDesk<K, B>,
    pass: &mut Pass<B>,
    clock: &C,
    message: &Message,
) -> Reply
    ensures answers { AnswersPass (C.may_show clock.now) pass.old message.now result pass.new }
    ensures taken { refuses result.status ≡ false }
    ensures further { Further pass.old pass.new }
{
    let routed = lead(routes, message);
    let body = message.body.as_bytes();
    let said = said_to_pass(rt, alloc, desk, pass, clock, routed, body);
    replied(said, pass.seen())
}

/// What the desk says of a message that leads there.
fn said_to_pass<R: Wait, K: Keeper + Drop, B: Naming, C: Clock>(
    rt: &R,
    alloc: Global,
    desk: &SharedDesk<K, B>,
    pass: &mut Pass<B>,
    clock: &C,
    routed: Routed,
    body: &[u8],
) -> Result<ReplyDraft, NoReply>
    ensures says { SaysTo (C.may_show clock.now) body.now routed pass.old pass.new result }
    ensures taken { IfOk result (λ said. refuses said.status ≡ false) }
    ensures further { Further pass.old pass.new }
{
    match routed {
        Routed::Act => said_of_body_for(rt, alloc, desk, pass, clock, body),
        Routed::Question(question) => answer_for(rt, alloc, desk, pass, &question),
        Routed::BadPart(part) => Ok(said_of_bad_form(alloc, part.name())?),
        Routed::NoRoute => Ok(refused(Refusal::NoRoute)),
        Routed::NoMethod => Ok(refused(Refusal::NoMethod)),
    }
}

/// The answer to a question. Its text is made when the lock is free again.
fn answer_for<R: Wait, K: Keeper + Drop, B: Naming>(
    rt: &R,
    alloc: Global,
    desk: &SharedDesk<K, B>,
    pass: &mut Pass<B>,
    question: &Question,
) -> Result<ReplyDraft, NoReply>
    ensures says { SaysAnswer question.now pass.old pass.new result }
    ensures taken { IfOk result (λ said. refuses said.status ≡ false) }
    ensures further { Further pass.old pass.new }
{
    let outcome = desk.ask(rt, alloc, pass, question);
    said_of_answer(alloc, outcome.answer)
}

/// What the desk says of the call that a body is.
fn said_of_body_for<R: Wait, K: Keeper + Drop, B: Naming, C: Clock>(
    rt: &R,
    alloc: Global,
    desk: &SharedDesk<K, B>,
    pass: &mut Pass<B>,
    clock: &C,
    body: &[u8],
) -> Result<ReplyDraft, NoReply>
    ensures says { SaysBody (C.may_show clock.now) (call_from body.now) pass.old pass.new result }
    ensures taken { IfOk result (λ said. refuses said.status ≡ false) }
    ensures further { Further pass.old pass.new }
{
    match call_of_bytes(alloc, body) {
        Ok(call) => said_of_call_for(rt, alloc, desk, pass, clock, call),
        Err(FormFault::BadField(path)) => Ok(said_of_bad_form(alloc, path.as_str())?),
        Err(FormFault::NoMemory) => Err(NoReply::NoMemory),
    }
}

/// What the desk says of a call, on a day that the clock shows. Its text is made when the lock is free again.
fn said_of_call_for<R: Wait, K: Keeper + Drop, B: Naming, C: Clock>(
    rt: &R,
    alloc: Global,
    desk: &SharedDesk<K, B>,
    pass: &mut Pass<B>,
    clock: &C,
    call: Call,
) -> Result<ReplyDraft, NoReply>
    requires fit { is_fit_call call ≡ true }
    ensures says { SaysCall (C.may_show clock.now) call pass.old pass.new result }
    ensures taken { IfOk result (λ said. refuses said.status ≡ false) }
    ensures further { Further pass.old pass.new }
{
    let outcome = desk.call(rt, alloc, pass, call, clock);
    said_of_reply(alloc, outcome.reply)
}
