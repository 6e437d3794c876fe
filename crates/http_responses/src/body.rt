//! Bodies of responses.

ghost use Rattle.std.specs.Prelude.{◌≡◌};
ghost use Rattle.http_responses.specs.Responses.{body_text, refusal_status};
ghost use Rattle.http_responses.specs.declared.body.Body.{Body as BodyValue};

use crate::{Refusal, Status};
use plain_data::Text;

/// The body of a response.
#[derive(Debug, Drop)]
pub enum Body {
    Text(Text),
    /// A constant, which takes no memory.
    Refused(Refusal),
}

impl Body {
    pub fn as_bytes(&self) -> &[u8]
        ensures { result.now ≡ body_text self.now }
    {
        match self {
            Body::Text(text) => text.as_bytes(),
            Body::Refused(refusal) => refusal.text().as_bytes(),
        }
    }
}

/// What is answered.
#[derive(Debug, Drop)]
pub struct Reply {
    pub status: Status,
    /// The number of acts that the answer is of.
    pub point: u32,
    pub body: Body,
}

impl Reply {
    /// The answer to what is refused.
    pub fn refused(refusal: Refusal, point: u32) -> Reply
        ensures { result ≡ record { status = refusal_status refusal; point = point; body = BodyValue.Refused refusal } }
    {
        Reply {
            status: refusal.status(),
            point,
            body: Body::Refused(refusal),
        }
    }
}
