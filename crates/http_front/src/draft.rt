//! What is said of a message, before its point is known.

ghost use Rattle.std.specs.Prelude.{◌≡◌};
ghost use Rattle.http_front.specs.Told.{status_of};

use clerk_desk::office_answers::Reply;
use http_responses::{Body, Refusal, Status};
use plain_data::{NoMemory, Text};

/// What is said of a message: all of its reply but the point.
#[derive(Debug, Drop)]
pub(crate) struct ReplyDraft {
    pub(crate) status: Status,
    pub(crate) body: Body,
}

/// Why the office says nothing.
#[derive(Clone, Copy, Debug)]
pub(crate) enum NoReply {
    /// The keeper failed.
    Store,
    NoMemory,
}

impl From<NoMemory> for NoReply {
    ghost use Rattle.http_front.specs.declared.draft.NoReply.TheVariants as silence;

    ghost from_gives = { λ _ why. why ≡ silence.NoMemory };

    fn from(_error: NoMemory) -> NoReply {
        NoReply::NoMemory
    }
}
