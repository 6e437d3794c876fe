//! Heads of responses.

ghost use Rattle.std.specs.Prelude.{◌≡◌, ◌+◌, ◌≤◌, ◌^◌, ◌<◌, ◌++◌, length, decimal, codes};
ghost use Rattle.http_responses.specs.Responses.{connection, head_text, status_line};

use crate::Status;
use arrayvec::ArrayVec;
use itoa::Buffer;

/// How many bytes of a response are put together before they are written.
pub(crate) const PACKET: usize = 2_048;

pub(crate) type Packet = ArrayVec<u8, PACKET>;

/// The head of a response, which has at most 256 bytes.
#[tactic(auto, unfolding(crate::specs::Responses::head_text))]
pub(crate) fn put_head(packet: &mut Packet, status: Status, point: u32, size: usize, is_last: bool)
    requires { length packet.old.items ≡ 0 }
    ensures is { packet.new.items ≡ packet.old.items ++ head_text status point size is_last }
    ensures long { length packet.new.items ≤ 256 }
{
    put_status_line(packet, status);
    put_number(packet, b"book: ", point.into());
    put_connection(packet, is_last);
    put_number(packet, b"content-length: ", size as u64);
    put(packet, b"content-type: application/json\r\n\r\n");
}

fn put_status_line(packet: &mut Packet, status: Status)
    requires { length packet.old.items + 70 ≤ 2048 }
    ensures is { packet.new.items ≡ packet.old.items ++ status_line status }
    ensures long { length packet.new.items ≤ length packet.old.items + 70 }
{
    put(packet, b"HTTP/1.1 ");
    put_decimal(packet, status.code().into());
    put(packet, b" ");
    put(packet, status.phrase().as_bytes());
    put(packet, b"\r\n");
}

fn put_connection(packet: &mut Packet, is_last: bool)
    requires { length packet.old.items + 19 ≤ 2048 }
    ensures is { packet.new.items ≡ packet.old.items ++ connection is_last }
    ensures long { length packet.new.items ≤ length packet.old.items + 19 }
{
    if is_last {
        put(packet, b"connection: close\r\n");
    }
}

fn put_number(packet: &mut Packet, name: &[u8], value: u64)
    requires { length packet.old.items + length name.now + 22 ≤ 2048 }
    ensures is { packet.new.items ≡ packet.old.items ++ (name.now ++ (decimal value ++ codes "\r\n")) }
    ensures long { length packet.new.items ≤ length packet.old.items + length name.now + 22 }
{
    put(packet, name);
    put_decimal(packet, value);
    put(packet, b"\r\n");
}

fn put_decimal(packet: &mut Packet, value: u64)
    requires { length packet.old.items + 20 ≤ 2048 }
    ensures is { packet.new.items ≡ packet.old.items ++ decimal value }
    ensures long { length packet.new.items ≤ length packet.old.items + 20 }
{
    let mut digits = Buffer::new();
    put(packet, digits.format(value).as_bytes());
}

/// Appends bytes, for which there is room.
pub(crate) fn put(packet: &mut Packet, bytes: &[u8])
    requires { length packet.old.items + length bytes.now ≤ 2048 }
    ensures is { packet.new.items ≡ packet.old.items ++ bytes.now }
    ensures long { length packet.new.items ≡ length packet.old.items + length bytes.now }
{
    packet.try_extend_from_slice(bytes).unwrap();
}
