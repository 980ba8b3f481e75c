//! Bodies of requests and of replies.

use crate::buffers::Buffer;
use std::alloc::{AllocError, Global};

/// The mode of requests that are ordered, and of replies to them.
pub const ORDERED: u8 = 0;

/// The mode of requests that are answered at once, and of replies to them.
pub const READ_ONLY: u8 = 1;

/// What a replica replies: the timestamp of the call, the mode, the number of its state, and the answer.
pub type Reply<'a> = (u64, u8, u64, &'a [u8]);

/// The party of a client.
pub fn client_party(client: u8) -> u16 {
    256 + u16::from(client)
}

/// Puts the body of a client's request.
pub fn put_request(client: u8, timestamp: u64, mode: u8, op: &[u8], out: &mut Buffer) {
    out.put_byte(0x41);
    out.put_short(client_party(client));
    out.put_number(timestamp);
    out.put_byte(mode);
    out.put(op);
}

/// Puts the body of a replica's reply to a client.
pub fn put_reply(replica: u8, client: u8, reply: Reply<'_>, out: &mut Buffer) {
    let (timestamp, mode, number, answer) = reply;
    out.put_byte(0x48);
    out.put_short(u16::from(replica));
    out.put_short(client_party(client));
    out.put_number(timestamp);
    out.put_byte(mode);
    out.put_number(number);
    out.put(answer);
}

/// The body of a client's request.
pub fn request_body(
    alloc: Global,
    client: u8,
    timestamp: u64,
    mode: u8,
    op: &[u8],
) -> Result<Vec<u8>, AllocError> {
    let mut body = Buffer::new(alloc);
    put_request(client, timestamp, mode, op, &mut body);
    body.whole()
}

/// The body of a replica's reply to a client.
pub fn reply_body(
    alloc: Global,
    replica: u8,
    client: u8,
    reply: Reply<'_>,
) -> Result<Vec<u8>, AllocError> {
    let mut body = Buffer::new(alloc);
    put_reply(replica, client, reply, &mut body);
    body.whole()
}
