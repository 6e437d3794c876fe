//! Who answers a session's messages.

use http_messages::Message;
use http_responses::Reply;
use std::alloc::Global;

/// Who answers the messages of a session, one after another.
///
/// It says what a reply has to do with the message and with the desk before and after it, and at which point it stands.
pub trait Desk {
    ghost use Rattle.std.specs.Prelude.{◌≡◌, ℕ, false, IfSome, IfNone};
    ghost use Rattle.http_messages.specs.declared.message.Message.{Message};
    ghost use Rattle.http_responses.specs.declared.body.Reply.{Reply};
    ghost use Rattle.http_session.specs.Replies.{refuses};

    // It is as it has to be when it is asked, as where its book is the one that is kept.
    ghost in_order: { Self → Type 0 };

    // This is a reply to the message, and such is the desk afterwards.
    ghost answers: { Self → Message → Reply → Self → Type 0 };

    // Memory ran out before there was a reply, and such is the desk afterwards.
    ghost gives_up: { Self → Message → Self → Type 0 };

    // This is the desk after some answers.
    ghost follows: { Self → Self → Type 0 };

    // How many acts it has seen.
    ghost point: { Self → ℕ };

    /// Answers a message. `None` is want of memory, where no response could be made.
    ///
    /// A message that came whole is never refused as a message: the statuses that end a session are the session's own.
    fn answer(&mut self, alloc: Global, message: &Message) -> Option<Reply>
        requires in_order { in_order self.old }
        ensures in_order { in_order self.new }
        ensures answers { IfSome result (λ reply. answers self.old message.now reply self.new) }
        ensures taken { IfSome result (λ reply. refuses reply.status ≡ false) }
        ensures gives_up { IfNone result (gives_up self.old message.now self.new) }
        ensures follows { follows self.old self.new };

    /// How many acts it has seen.
    fn seen(&self) -> u32
        ensures { result ≡ point self.now };

    // After none it is as it was.
    ghost stays: { (desk : Self) → follows desk desk };

    // What follows one that follows it, follows it.
    ghost joins: { (desk mid desk_now : Self) → follows desk mid → follows mid desk_now → follows desk desk_now };
}
