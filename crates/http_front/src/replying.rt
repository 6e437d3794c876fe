//! From what the office says to what is written.

ghost use Rattle.std.specs.Prelude.{◌≡◌, false, IfOk};
ghost use Rattle.http_responses.specs.Responses.{refusal_status};
ghost use Rattle.http_session.specs.Replies.{refuses};
ghost use Rattle.http_front.specs.Told.{refused, status_of};
ghost use Rattle.http_front.specs.Passes.{IsToldAs, reply_of};

use crate::draft::{NoReply, ReplyDraft};
use clerk_desk::office_answers::Reply as OfficeReply;
use http_responses::{Body, Refusal, Reply, Status};
use reply_text::text_of_reply;
use std::alloc::Global;

/// What is said of a reply: nothing where the keeper failed, or memory ran out.
pub(crate) fn said_of_reply(alloc: Global, reply: OfficeReply) -> Result<ReplyDraft, NoReply>
    ensures told { IsToldAs reply result }
    ensures taken { IfOk result (λ said. refuses said.status ≡ false) }
{
    match reply {
        OfficeReply::StoreFault => Err(NoReply::Store),
        OfficeReply::NoMemory => Err(NoReply::NoMemory),
        reply => Ok(ReplyDraft {
            status: status_of(reply),
            body: Body::Text(text_of_reply(alloc, &reply)?),
        }),
    }
}

fn status_of(reply: OfficeReply) -> Status
    ensures value { result ≡ status_of reply }
    ensures taken { refuses result ≡ false }
{
    match reply {
        OfficeReply::Accepted(_) => Status::Created,
        _ => Status::Conflict,
    }
}

/// A refusal that is told by its kind alone.
pub(crate) fn refused(refusal: Refusal) -> ReplyDraft
    requires { refuses (refusal_status refusal) ≡ false }
    ensures said { result ≡ refused refusal }
    ensures taken { refuses result.status ≡ false }
{
    ReplyDraft {
        status: refusal.status(),
        body: Body::Refused(refusal),
    }
}

/// What is said at a point, or why nothing is.
pub(crate) fn replied(said: Result<ReplyDraft, NoReply>, point: u32) -> Reply
    requires taken { IfOk said (λ it. refuses it.status ≡ false) }
    ensures exact { result ≡ reply_of said point }
    ensures taken { refuses result.status ≡ false }
{
    match said {
        Ok(ReplyDraft { status, body }) => Reply {
            status,
            point,
            body,
        },
        Err(NoReply::Store) => Reply::refused(Refusal::Store, point),
        Err(NoReply::NoMemory) => Reply::refused(Refusal::NoMemory, point),
    }
}
