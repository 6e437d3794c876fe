//! Where messages lead, and what is said of questions.

ghost use Rattle.std.specs.Prelude.{◌≡◌, true, false, IfOk, Result};
ghost use Rattle.clerk_desk.specs.Below.office_answers.Answered.{Answers};
ghost use Rattle.clerk_desk.specs.Below.office_answers.declared.answer.Answer.{Answer};
ghost use Rattle.clerk_desk.specs.Below.office_step.declared.refusal.Refusal.{Refusal};
ghost use Rattle.http_session.specs.Replies.{refuses};
ghost use Rattle.http_front.specs.Told.{IsLed, IsSaid, bad_form, said_of_answer};

use crate::draft::{NoReply, ReplyDraft};
use clerk_desk::office_answers::{Answer, Asked, Reply};
use http_messages::Message;
use http_responses::{Body, Status};
use http_routes::{Routed, Routes};
use plain_data::NoMemory;
use reply_text::{text_of_answer, text_of_bad_form, text_of_reply};
use std::alloc::Global;

/// Where a message leads.
pub(crate) fn lead(routes: &Routes, message: &Message) -> Routed
    ensures { IsLed message.now result }
{
    let Ok(method) = str::from_utf8(message.method.as_bytes()) else {
        return Routed::NoRoute;
    };
    let Ok(target) = str::from_utf8(message.target.as_bytes()) else {
        return Routed::NoRoute;
    };
    routes.lead(method, target)
}

/// What is said of an answer, or of why there is none.
pub(crate) fn said_of_answer(
    alloc: Global,
    answer: Result<Answer, Asked>,
) -> Result<ReplyDraft, NoReply>
    ensures said { (right : Result Answer Refusal) → Answers right answer → IsSaid (said_of_answer right) result }
    ensures taken { IfOk result (λ said. refuses said.status ≡ false) }
{
    match answer {
        Ok(answer) => Ok(ReplyDraft {
            status: Status::Okay,
            body: Body::Text(text_of_answer(alloc, &answer)?),
        }),
        Err(Asked::Refused(refusal)) => Ok(ReplyDraft {
            status: Status::Conflict,
            body: Body::Text(text_of_reply(alloc, &Reply::Refused(refusal))?),
        }),
        Err(Asked::NoMemory) => Err(NoReply::NoMemory),
    }
}

/// What is said of the first place that isn't of its form.
pub(crate) fn said_of_bad_form(alloc: Global, path: &str) -> Result<ReplyDraft, NoMemory>
    ensures { IfOk result (λ said. said ≡ bad_form path.now) }
{
    Ok(ReplyDraft {
        status: Status::UnprocessableEntity,
        body: Body::Text(text_of_bad_form(alloc, path)?),
    })
}
