//! Frames as long as they may be, and memory refused.

use crate::decoding::{comes_back, fault, is_malformed};
use crate::frames::{
    DIGEST, ONE, REQUEST, TWO, VIEW_CHANGE, carried_request, new_view, new_view_of,
    parts_with_macs, signed, signed_parts, with_macs,
};
use std::alloc::{AllocError, Global};
use std::test::Fail;
use test_bytes::{joined, piece};
use wire::{MAX_FRAME, MAX_VIEW_CHANGE, WireFault};

fn is_too_large(alloc: Global, bytes: &[u8]) -> bool {
    fault(alloc, bytes) == Some(WireFault::TooLarge)
}

// The body of a page of so many bytes.
fn page_body(alloc: Global, len: usize) -> Result<Vec<u8>, AllocError> {
    let text = Vec::from_elem(alloc, 3u8, len)?;
    joined(alloc, &[b"\x4b\x00\x03", TWO, b"\x00\x01", &text])
}

// A page whose frame for one receiver has so many bytes.
fn page_of(alloc: Global, len: usize) -> Result<Vec<u8>, AllocError> {
    let body = page_body(alloc, len.saturating_sub(53))?;
    let front = piece(alloc, &body)?;
    joined(alloc, &[&front, b"\x00\x01\x00\x02", &[6; 32]])
}

#[test]
fn the_longest_frame(rt: HostRuntime) -> Result<(), Fail> {
    let frame = page_of(rt.alloc(), MAX_FRAME)?;
    assert_eq!(rt; frame.len(), MAX_FRAME);
    assert!(rt; comes_back(rt.alloc(), &frame)?);
    Ok(())
}

#[test]
fn a_frame_too_long(rt: HostRuntime) -> Result<(), Fail> {
    let frame = page_of(rt.alloc(), MAX_FRAME + 1)?;
    assert!(rt; is_too_large(rt.alloc(), &frame));
    Ok(())
}

fn put_checkpoint_entries(body: &mut Vec<u8>, count: u8) -> Result<(), AllocError> {
    for number in 0..count {
        body.extend_from_slice(&(number as u64).to_be_bytes())?;
        body.extend_from_slice(DIGEST)?;
    }
    Ok(())
}

fn put_batch_entries(body: &mut Vec<u8>, count: u16) -> Result<(), AllocError> {
    for number in 0..count {
        body.extend_from_slice(&(number as u64).to_be_bytes())?;
        body.extend_from_slice(DIGEST)?;
        body.extend_from_slice(ONE)?;
    }
    Ok(())
}

// The signed frame of a sender's view change: 16,606 bytes, 40 for each checkpoint entry and 48 for each batch entry.
fn long_change(
    alloc: Global,
    sender: u8,
    checkpoints: u8,
    prepared: u16,
) -> Result<Vec<u8>, AllocError> {
    let mut body = joined(alloc, &[b"\x46\x00", &[sender], ONE, ONE, &[checkpoints]])?;
    put_entries(&mut body, checkpoints, prepared)?;
    signed(alloc, &body)
}

fn put_entries(body: &mut Vec<u8>, checkpoints: u8, prepared: u16) -> Result<(), AllocError> {
    put_checkpoint_entries(body, checkpoints)?;
    body.extend_from_slice(&prepared.to_be_bytes())?;
    put_batch_entries(body, prepared)?;
    body.extend_from_slice(&[0, 0])
}

// The signed frame of a new view with this view change.
fn new_view_frame(alloc: Global, change: &[u8]) -> Result<Vec<u8>, AllocError> {
    let body = new_view_of(alloc, change)?;
    signed(alloc, &body)
}

fn comes_back_carried(alloc: Global, change: &[u8]) -> Result<bool, WireFault> {
    let frame = new_view_frame(alloc, change)?;
    comes_back(alloc, &frame)
}

// Whether the view change comes back by itself, and as one that a new view carries.
fn comes_back_both(alloc: Global, change: &[u8]) -> Result<bool, WireFault> {
    Ok(comes_back(alloc, change)? && comes_back_carried(alloc, change)?)
}

fn is_too_large_carried(alloc: Global, change: &[u8]) -> Result<bool, AllocError> {
    let frame = new_view_frame(alloc, change)?;
    Ok(is_too_large(alloc, &frame))
}

fn is_too_large_both(alloc: Global, change: &[u8]) -> Result<bool, AllocError> {
    Ok(is_too_large(alloc, change) && is_too_large_carried(alloc, change)?)
}

// The longest view change of a sender.
pub fn longest_change(alloc: Global, sender: u8) -> Result<Vec<u8>, AllocError> {
    long_change(alloc, sender, 0, 5115)
}

// 262,144 is between the lengths of this one and the next, which are as near to it as view changes come.
#[test]
fn the_longest_view_change(rt: HostRuntime) -> Result<(), Fail> {
    let longest = longest_change(rt.alloc(), 2)?;
    assert!(rt; longest.len() == 262_126 && comes_back_both(rt.alloc(), &longest)?);
    Ok(())
}

#[test]
fn a_view_change_too_long(rt: HostRuntime) -> Result<(), Fail> {
    let longer = long_change(rt.alloc(), 2, 3, 5113)?;
    assert!(rt; longer.len() == 262_150 && is_too_large_both(rt.alloc(), &longer)?);
    Ok(())
}

// Bytes that begin as a view change, so many of them.
fn filled(alloc: Global, len: usize) -> Result<Vec<u8>, AllocError> {
    let rest = Vec::from_elem(alloc, 0u8, len.saturating_sub(5))?;
    joined(alloc, &[b"\x00\x00\x00\x09\x46", &rest])
}

// At the limit itself the bytes are no view change, but they are not too long either.
#[test]
fn the_limit_of_view_changes(rt: HostRuntime) -> Result<(), Fail> {
    let at_limit = filled(rt.alloc(), MAX_VIEW_CHANGE)?;
    assert!(rt; is_malformed(rt.alloc(), &at_limit));
    let longer = filled(rt.alloc(), MAX_VIEW_CHANGE + 1)?;
    assert!(rt; is_too_large(rt.alloc(), &longer));
    Ok(())
}

// The fault of a new view whose view change has this length in four bytes, and does not follow.
fn fault_of_length(alloc: Global, len: &[u8]) -> Result<Option<WireFault>, AllocError> {
    let frame = signed_parts(alloc, &[b"\x47\x00\x01", ONE, b"\x01", len, TWO])?;
    Ok(fault(alloc, &frame))
}

#[test]
fn the_limit_of_carried_view_changes(rt: HostRuntime) -> Result<(), Fail> {
    let at_limit = fault_of_length(rt.alloc(), b"\x00\x04\x00\x00")?;
    assert_eq!(rt; at_limit, Some(WireFault::Malformed));
    let longer = fault_of_length(rt.alloc(), b"\x00\x04\x00\x01")?;
    assert_eq!(rt; longer, Some(WireFault::TooLarge));
    Ok(())
}

// Whether the frame comes back, at the second try if memory ran out at the first one.
fn comes_again(alloc: Global, bytes: &[u8]) -> Result<bool, WireFault> {
    match comes_back(alloc, bytes) {
        Err(WireFault::NoMemory) => comes_back(alloc, bytes),
        first => first,
    }
}

fn pre_prepare(alloc: Global) -> Result<Vec<u8>, AllocError> {
    let carried = carried_request(alloc)?;
    parts_with_macs(alloc, &[b"\x42\x00\x00", ONE, TWO, b"\x01", &carried])
}

// A reply that found `(1)`.
static REPLY: &[&[u8]] = &[
    b"\x48\x00\x03\x01\x00",
    ONE,
    b"\x01",
    TWO,
    b"\x32\x01\x01",
    ONE,
];

static DIGESTS: &[&[u8]] = &[b"\x4a\x00\x03", TWO, b"\x01\x00\x1f", &[5; 1024]];

static PAGE: &[&[u8]] = &[b"\x4b\x00\x03", TWO, b"\x03\xff\x01\x02\x03"];

// How many messages take memory.
const MESSAGES: u8 = 7;

// A frame of each such message; the new view has two batches.
fn frame_of(alloc: Global, number: u8) -> Result<Vec<u8>, AllocError> {
    match number {
        0 => with_macs(alloc, REQUEST),
        1 => pre_prepare(alloc),
        2 => parts_with_macs(alloc, REPLY),
        3 => parts_with_macs(alloc, DIGESTS),
        4 => parts_with_macs(alloc, PAGE),
        5 => signed_parts(alloc, VIEW_CHANGE),
        _ => {
            let body = new_view(alloc)?;
            signed(alloc, &body)
        },
    }
}

// In a plain run nothing is refused here. `tools/growths` refuses the growth of number N: this test
// passes at each N.
#[test]
fn refused_memory(rt: HostRuntime) -> Result<(), Fail> {
    for number in 0..MESSAGES {
        let frame = match frame_of(rt.alloc(), number) {
            Ok(frame) => frame,
            Err(_) => frame_of(rt.alloc(), number)?,
        };
        assert!(rt; comes_again(rt.alloc(), &frame)?);
    }
    Ok(())
}
