//! Refusals whose body is a constant.

ghost use Rattle.std.specs.Prelude.{◌≡◌};
ghost use Rattle.http_responses.specs.Responses.{refusal_status, refusal_text};

use crate::Status;

/// A refusal that is told by its kind alone, so that its body is a constant.
#[derive(Clone, Copy, Debug, PartialEq, Eq)]
pub enum Refusal {
    BadHead,
    HeadTooLong,
    Coding,
    BadLength,
    BodyTooLong,
    NoRoute,
    NoMethod,
    Store,
    NoMemory,
}

impl Refusal {
    pub fn status(self) -> Status
        ensures { result ≡ refusal_status self }
    {
        match self {
            Refusal::BadHead => Status::BadRequest,
            Refusal::HeadTooLong => Status::HeaderFieldsTooLarge,
            Refusal::Coding => Status::NotImplemented,
            Refusal::BadLength => Status::BadRequest,
            Refusal::BodyTooLong => Status::PayloadTooLarge,
            Refusal::NoRoute => Status::NotFound,
            Refusal::NoMethod => Status::MethodNotAllowed,
            Refusal::Store => Status::ServiceUnavailable,
            Refusal::NoMemory => Status::InsufficientStorage,
        }
    }

    /// Its body.
    pub fn text(self) -> &'static str
        ensures { result.now ≡ refusal_text self }
    {
        match self {
            Refusal::BadHead => "{\"refused\":{\"kind\":\"BadHead\"}}",
            Refusal::HeadTooLong => "{\"refused\":{\"kind\":\"HeadTooLong\"}}",
            Refusal::Coding => "{\"refused\":{\"kind\":\"Coding\"}}",
            Refusal::BadLength => "{\"refused\":{\"kind\":\"BadLength\"}}",
            Refusal::BodyTooLong => "{\"refused\":{\"kind\":\"BodyTooLong\"}}",
            Refusal::NoRoute => "{\"refused\":{\"kind\":\"NoRoute\"}}",
            Refusal::NoMethod => "{\"refused\":{\"kind\":\"NoMethod\"}}",
            Refusal::Store => "{\"refused\":{\"kind\":\"Store\"}}",
            Refusal::NoMemory => "{\"refused\":{\"kind\":\"NoMemory\"}}",
        }
    }
}
