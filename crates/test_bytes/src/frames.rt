//! Frames, and the bytes of which they and batches are put together.

use crate::buffers::Buffer;
use std::alloc::{AllocError, Global};

/// The parts behind each other.
pub fn joined(alloc: Global, parts: &[&[u8]]) -> Result<Vec<u8>, AllocError> {
    let mut all = Buffer::new(alloc);
    for part in parts {
        all.put(part);
    }
    all.whole()
}

/// Bytes behind their length.
pub fn piece(alloc: Global, bytes: &[u8]) -> Result<Vec<u8>, AllocError> {
    let mut piece = Buffer::new(alloc);
    piece.put_piece(bytes);
    piece.whole()
}

/// The text of the batch of these frames, at most 31.
pub fn batch_text(alloc: Global, frames: &[&[u8]]) -> Result<Vec<u8>, AllocError> {
    let mut text = Buffer::new(alloc);
    text.put_byte((frames.len() & 0x1f) as u8);
    for frame in frames {
        text.put_piece(frame);
    }
    text.whole()
}

/// The frame of a body with a MAC for each receiver, at most 255, by the parties' numbers.
pub fn sealed(
    alloc: Global,
    sender: u16,
    receivers: &[u16],
    body: &[u8],
) -> Result<Vec<u8>, AllocError> {
    let mut frame = Buffer::new(alloc);
    frame.put_piece(body);
    put_macs(sender, receivers, body, &mut frame);
    frame.whole()
}

fn put_macs(sender: u16, receivers: &[u16], body: &[u8], out: &mut Buffer) {
    out.put_byte(0);
    out.put_byte((receivers.len() & 0xff) as u8);
    for receiver in receivers {
        out.put_mac(sender, *receiver, body);
    }
}

// The party that stands behind a body's type.
fn sender_of(body: &[u8]) -> u16 {
    match body {
        [_, high, low, ..] => u16::from_be_bytes([*high, *low]),
        _ => 0,
    }
}

/// The frame of a body with a MAC of its sender for each receiver, at most 255, by the parties' numbers.
pub fn seal(alloc: Global, body: &Buffer, receivers: &[u16]) -> Buffer {
    let mut frame = Buffer::new(alloc);
    frame.put_framed(body);
    let body = body.bytes();
    put_macs(sender_of(body), receivers, body, &mut frame);
    frame
}
