//! Frames of bytes for tests, written without the crate that is tested.

use std::alloc::{AllocError, Global};
use test_bytes::{joined, piece};
use wire::SIGNATURE_LEN;

// The digest of no text in particular, and numbers in 8 bytes.
pub const DIGEST: &[u8] = &[9; 32];

pub const ONE: &[u8] = b"\x00\x00\x00\x00\x00\x00\x00\x01";

pub const TWO: &[u8] = b"\x00\x00\x00\x00\x00\x00\x00\x02";

// The request `out (1)` of client 0 with timestamp 1.
pub const REQUEST: &[u8] =
    b"\x41\x01\x00\x00\x00\x00\x00\x00\x00\x00\x01\x00\x21\x01\x01\x00\x00\x00\x00\x00\x00\x00\x01";

// A view change with a checkpoint entry, a batch entry to be prepared and two to be pre-prepared.
pub static VIEW_CHANGE: &[&[u8]] = &[
    b"\x46\x00\x02",
    ONE,
    ONE,
    b"\x01",
    ONE,
    DIGEST,
    b"\x00\x01",
    TWO,
    DIGEST,
    ONE,
    b"\x00\x02",
    TWO,
    &[8; 32],
    ONE,
    TWO,
    DIGEST,
    ONE,
];

fn put_macs(frame: &mut Vec<u8>) -> Result<(), AllocError> {
    frame.extend_from_slice(&[0, 4])?;
    for receiver in 0..4u8 {
        frame.extend_from_slice(&[0, receiver])?;
        frame.extend_from_slice(&[receiver; 32])?;
    }
    Ok(())
}

// A frame of the body with MACs for the receivers 0 to 3.
pub fn with_macs(alloc: Global, body: &[u8]) -> Result<Vec<u8>, AllocError> {
    let mut frame = piece(alloc, body)?;
    put_macs(&mut frame)?;
    Ok(frame)
}

// A frame of the body with a signature, which no test verifies.
pub fn signed(alloc: Global, body: &[u8]) -> Result<Vec<u8>, AllocError> {
    signed_by(alloc, body, 7)
}

// A frame of the body with bytes of a signature's length, the first of which numbers the key.
pub fn signed_by(alloc: Global, body: &[u8], key: u8) -> Result<Vec<u8>, AllocError> {
    let rest = Vec::from_elem(alloc, 7u8, SIGNATURE_LEN - 1)?;
    let mut frame = piece(alloc, body)?;
    frame.extend_from_slice(&[1, key])?;
    frame.extend_from_slice(&rest)?;
    Ok(frame)
}

// The length of the worked request's frame, and the frame, as others carry it.
pub fn carried_request(alloc: Global) -> Result<Vec<u8>, AllocError> {
    let frame = with_macs(alloc, REQUEST)?;
    piece(alloc, &frame)
}

pub fn signed_parts(alloc: Global, parts: &[&[u8]]) -> Result<Vec<u8>, AllocError> {
    let body = joined(alloc, parts)?;
    signed(alloc, &body)
}

pub fn parts_with_macs(alloc: Global, parts: &[&[u8]]) -> Result<Vec<u8>, AllocError> {
    let body = joined(alloc, parts)?;
    with_macs(alloc, &body)
}

// The body of a new view with this view change, a batch of no request and one of a request.
pub fn new_view_of(alloc: Global, change: &[u8]) -> Result<Vec<u8>, AllocError> {
    let carried = piece(alloc, change)?;
    let request = carried_request(alloc)?;
    joined(
        alloc,
        &[
            b"\x47\x00\x01",
            ONE,
            b"\x01",
            &carried,
            TWO,
            DIGEST,
            b"\x02\x00\x01",
            &request,
        ],
    )
}

pub fn new_view(alloc: Global) -> Result<Vec<u8>, AllocError> {
    let change = signed_parts(alloc, VIEW_CHANGE)?;
    new_view_of(alloc, &change)
}
