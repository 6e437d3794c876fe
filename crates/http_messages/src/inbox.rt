//! The messages of a source.

use crate::Incoming;
use crate::buffer::Buffer;
use crate::next::next_of;
use http_heads::HeadReader;
use office_io::Source;
use plain_data::NoMemory;
use std::alloc::Global;
use std::marker::Model;

/// What was read of a source and not yet given as a message, with the room for the longest message.
///
/// Contracts see these bytes.
#[derive(Debug, Drop)]
pub struct Inbox {
    held: Buffer,
    heads: HeadReader,
}

impl Model for Inbox {
    ghost use Rattle.std.specs.Prelude.{ℕ, List};

    ghost Value = { List ℕ };

    ghost view = { λ inbox. inbox.held };
}

impl Inbox {
    ghost use Rattle.std.specs.Prelude.{◌≡◌, [], IfOk};
    ghost use Rattle.http_messages.specs.Incoming.{Comes, IncomingCause};

    /// An empty inbox. All its room is taken here: 32 KiB for a message, and 172 KiB for where its headers stand.
    pub fn new(alloc: Global) -> Result<Inbox, NoMemory>
        ensures { IfOk result (λ inbox. inbox ≡ []) }
    {
        Ok(Inbox {
            held: Buffer::new(alloc)?,
            heads: HeadReader::new(alloc)?,
        })
    }

    /// The next message, of the bytes that are held and then those of the source.
    ///
    /// It begins no read once the bytes at hand hold a whole message or are refused, and a read asks for at most 4,096
    /// bytes. Memory is taken for the copies of the message's parts alone.
    pub fn next_message<S: Source>(&mut self, alloc: Global, source: &mut S) -> Incoming
        ensures comes { Comes self.old self.new (S.left source.old) (S.left source.new) result }
        ensures cause { IncomingCause (S.faults source.old) (S.faults source.new) result }
    {
        next_of(alloc, &mut self.held, &mut self.heads, source)
    }
}
