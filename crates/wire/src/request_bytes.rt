//! Requests as they stand in the bytes of their frames.

ghost use Rattle.std.specs.Prelude.{◌≡◌, ◌≤◌, ◌==◌, length, drop, slice_index, true};
ghost use Rattle.byteorder.specs.Endian.{big_number};
ghost use Rattle.terms.specs.Parties.{party_number};
ghost use Rattle.wire.specs.Headers.{IsFrame};
ghost use Rattle.wire.specs.Marks.{has_type_of_requests};
ghost use Rattle.wire.specs.Requests.{HoldsRequest, mode_of_byte};

use crate::reading::{body_bytes, party};
use byteorder::{BigEndian, ByteOrder};
use terms::{Mode, Party, Timestamp};

/// A request as it stands in the bytes of its frame.
#[derive(Clone, Copy, Drop)]
pub struct RequestBytes<'b> {
    pub sender: Party,
    pub timestamp: Timestamp,
    pub mode: Mode,
    /// The bytes of its operation.
    pub op: &'b [u8],
}

/// Whether the bytes have the type of requests: byte 4 is 41 (hex). Takes constant time, and no memory.
pub fn has_type_of_requests(bytes: &[u8]) -> bool
    ensures { result ≡ has_type_of_requests bytes.now }
{
    match bytes {
        [_, _, _, _, 0x41, ..] => true,
        _ => false,
    }
}

/// The request in a frame that has the type of requests; the caller judged it before. Nothing is decoded, and no
/// memory is taken.
pub fn request_in(frame: &[u8]) -> RequestBytes<'_>
    requires frame { IsFrame frame.now }
    requires kind { has_type_of_requests frame.now ≡ true }
    ensures { HoldsRequest frame.now result }
{
    fields_of(body_bytes(frame))
}

// The fields in the body of a request: the sender follows the type, the timestamp the sender, then the mode and the
// operation.
fn fields_of(text: &[u8]) -> RequestBytes<'_>
    requires { 12 ≤ length text.now }
    ensures sender { party_number result.sender ≡ big_number 2 (drop 1 text.now) }
    ensures timestamp { result.timestamp.0 ≡ big_number 8 (drop 3 text.now) }
    ensures mode { result.mode ≡ mode_of_byte (slice_index text.now 11) }
    ensures op { result.op.now ≡ drop 12 text.now }
{
    RequestBytes {
        sender: party(BigEndian::read_u16(&text[1..])),
        timestamp: Timestamp(BigEndian::read_u64(&text[3..])),
        mode: mode_of_byte(text[11]),
        op: &text[12..],
    }
}

/// The mode of a request or a reply, by its byte in a frame that was judged.
pub fn mode_of_byte(byte: u8) -> Mode
    ensures { result ≡ mode_of_byte byte }
{
    if byte == 1 {
        Mode::ReadOnly
    } else {
        Mode::Ordered
    }
}
