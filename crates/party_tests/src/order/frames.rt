//! Frames of bytes, written without the code that reads them.

use std::alloc::{AllocError, Global};
use test_bytes::{Reply, client_party, reply_body, request_body, sealed};

/// The operation `out (1)`.
pub const OUT_1: &[u8] = b"\x21\x01\x01\0\0\0\0\0\0\0\x01";

/// The operation `out (2)`.
pub const OUT_2: &[u8] = b"\x21\x01\x01\0\0\0\0\0\0\0\x02";

/// The answer that the tuple is `(1)`.
pub const FOUND_1: &[u8] = b"\x32\x01\x01\0\0\0\0\0\0\0\x01";

/// The client of a request, its timestamp, its mode and its operation.
pub type Request<'a> = (u8, u64, u8, &'a [u8]);

// The frame of a client's request, with a MAC for replica 0. Bytes are dropped by a call: values owned at a
// function's end make its proof long.
fn request_frame(
    alloc: Global,
    (client, timestamp, mode, op): Request<'_>,
) -> Result<Vec<u8>, AllocError> {
    let body = request_body(alloc, client, timestamp, mode, op)?;
    let frame = sealed(alloc, client_party(client), &[0], &body);
    drop(body);
    frame
}

/// The frame of replica 1's reply to a client.
pub fn reply_frame(alloc: Global, client: u8, reply: Reply<'_>) -> Result<Vec<u8>, AllocError> {
    let body = reply_body(alloc, 1, client, reply)?;
    let frame = sealed(alloc, 1, &[client_party(client)], &body);
    drop(body);
    frame
}

fn put_frame(text: &mut Vec<u8>, frame: &[u8]) -> Result<(), AllocError> {
    let len = (frame.len() & 0xff_ffff) as u32;
    text.extend_from_slice(&len.to_be_bytes())?;
    text.extend_from_slice(frame)
}

fn put_request(alloc: Global, text: &mut Vec<u8>, request: Request<'_>) -> Result<(), AllocError> {
    let frame = request_frame(alloc, request)?;
    let put = put_frame(text, &frame);
    drop(frame);
    put
}

/// Puts the text of the batch of these requests, at most 31.
pub fn put_batch(
    alloc: Global,
    text: &mut Vec<u8>,
    requests: &[Request<'_>],
) -> Result<(), AllocError> {
    text.push((requests.len() & 0x1f) as u8)?;
    for &request in requests {
        put_request(alloc, text, request)?;
    }
    Ok(())
}
