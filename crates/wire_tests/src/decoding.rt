//! Worked rows of bytes that are frames, and of bytes that are none.

ghost use Rattle.std.specs.Prelude.{◌≤◌, length};
ghost use Rattle.wire_format.specs.Counts.{CountsFit};
ghost use Rattle.wire_format.specs.Spelling.{authenticator_spelling};
ghost use Rattle.wire_format.specs.Views.{message_data, authenticator_data};

use crate::frames::{
    DIGEST, ONE, REQUEST, TWO, VIEW_CHANGE, carried_request, new_view, new_view_of,
    parts_with_macs, signed, signed_by, signed_parts, with_macs,
};
use std::alloc::{AllocError, Global};
use std::test::Fail;
use terms::NoMemory;
use test_bytes::{joined, piece};
use wire::{Body, Frame, WireFault, body_bytes, decode, encode, encode_frame};

fn is_body(alloc: Global, body: &Body, text: &[u8]) -> Result<bool, NoMemory>
    requires { CountsFit (message_data body.now.message) }
{
    let written = encode(alloc, body)?;
    Ok(written.as_slice() == text)
}

fn is_frame(alloc: Global, frame: &Frame, bytes: &[u8]) -> Result<bool, WireFault>
    requires body { CountsFit (message_data frame.now.body.message) }
    requires authenticator { length (authenticator_spelling (authenticator_data frame.now.authenticator)) ≤ 16578 }
{
    let written = encode_frame(alloc, frame)?;
    Ok(written.as_slice() == bytes)
}

fn is_written(alloc: Global, frame: &Frame, bytes: &[u8]) -> Result<bool, WireFault>
    requires body { CountsFit (message_data frame.now.body.message) }
    requires authenticator { length (authenticator_spelling (authenticator_data frame.now.authenticator)) ≤ 16578 }
{
    Ok(is_body(alloc, &frame.body, body_bytes(bytes))? && is_frame(alloc, frame, bytes)?)
}

// Whether the bytes are a frame that is written as these bytes again, and so is its body. A frame is dropped by a
// call: a drop at the function's end has a case for each kind of message.
pub fn comes_back(alloc: Global, bytes: &[u8]) -> Result<bool, WireFault> {
    let frame = decode(alloc, bytes)?;
    let is_back = is_written(alloc, &frame, bytes);
    drop(frame);
    is_back
}

pub fn fault(alloc: Global, bytes: &[u8]) -> Option<WireFault> {
    decode(alloc, bytes).err()
}

pub fn is_malformed(alloc: Global, bytes: &[u8]) -> bool {
    fault(alloc, bytes) == Some(WireFault::Malformed)
}

// Whether no front of the bytes is a frame, of those with a length from the first number to below the second.
fn fronts_are_refused(alloc: Global, bytes: &[u8], from: usize, to: usize) -> bool {
    for len in from..to.min(bytes.len()) {
        if !is_malformed(alloc, &bytes[..len]) {
            return false;
        }
    }
    true
}

// Whether the frame comes back, and one with a spare byte is none.
fn stands(alloc: Global, bytes: &[u8]) -> Result<bool, WireFault> {
    let longer = joined(alloc, &[bytes, &[0]])?;
    Ok(is_malformed(alloc, &longer) && comes_back(alloc, bytes)?)
}

// Whether the body's frame is none with MACs.
fn needs_signature(alloc: Global, body: &[u8]) -> Result<bool, AllocError> {
    let frame = with_macs(alloc, body)?;
    Ok(is_malformed(alloc, &frame))
}

// Whether the body's frame is none with a signature.
fn needs_macs(alloc: Global, body: &[u8]) -> Result<bool, AllocError> {
    let frame = signed(alloc, body)?;
    Ok(is_malformed(alloc, &frame))
}

// Whether the body's frame with MACs is one, and is none if it is cut.
fn stands_whole(alloc: Global, body: &[u8]) -> Result<bool, WireFault> {
    let frame = with_macs(alloc, body)?;
    Ok(stands(alloc, &frame)? && fronts_are_refused(alloc, &frame, 0, frame.len()))
}

// Whether the body's frame stands with MACs, but neither with a signature nor cut.
fn stands_with_macs(alloc: Global, parts: &[&[u8]]) -> Result<bool, WireFault> {
    let body = joined(alloc, parts)?;
    Ok(stands_whole(alloc, &body)? && needs_macs(alloc, &body)?)
}

// Whether the body's frame stands with a signature, and not with MACs.
fn stands_signed(alloc: Global, body: &[u8]) -> Result<bool, WireFault> {
    let frame = signed(alloc, body)?;
    Ok(stands(alloc, &frame)? && needs_signature(alloc, body)?)
}

fn is_worked(frame: &[u8]) -> bool {
    frame.len() == 165 && frame.starts_with(&[0, 0, 0, 0x17, 0x41]) && body_bytes(frame) == REQUEST
}

#[test]
fn the_worked_request(rt: HostRuntime) -> Result<(), Fail> {
    let frame = with_macs(rt.alloc(), REQUEST)?;
    assert!(rt; is_worked(&frame));
    Ok(())
}

// Bodies that go with MACs.
static BODIES: [&[&[u8]]; 8] = [
    &[REQUEST],
    // Votes and a checkpoint.
    &[b"\x43\x00\x01", ONE, TWO, DIGEST],
    &[b"\x44\x00\x01", ONE, TWO, DIGEST],
    &[b"\x45\x00\x01", TWO, DIGEST],
    // A reply, a fetch, digests and a page.
    &[b"\x48\x00\x03\x01\x00", ONE, b"\x01", TWO, b"\x34\x01"],
    &[b"\x49\x00\x03", TWO, b"\x02\x03\xff"],
    &[b"\x4a\x00\x03", TWO, b"\x01\x00\x1f", &[5; 1024]],
    &[b"\x4b\x00\x03", TWO, b"\x03\xff", b"\x01\x02\x03"],
];

#[test]
fn bodies_stand_with_macs(rt: HostRuntime) -> Result<(), Fail> {
    for &parts in &BODIES {
        assert!(rt; stands_with_macs(rt.alloc(), parts)?);
    }
    Ok(())
}

// A fetch of a page past the last one.
static PAST: &[&[u8]] = &[b"\x49\x00\x03", TWO, b"\x02\x04\x00"];

#[test]
fn no_page_past_the_last(rt: HostRuntime) -> Result<(), Fail> {
    let frame = parts_with_macs(rt.alloc(), PAST)?;
    assert!(rt; is_malformed(rt.alloc(), &frame));
    Ok(())
}

// The fields of a pre-prepare before its batch.
const HEAD: &[u8] = b"\x42\x00\x00\x00\x00\x00\x00\x00\x00\x00\x01\x00\x00\x00\x00\x00\x00\x00\x02";

// Whether a batch of the same request twice stands.
fn two_stand(alloc: Global) -> Result<bool, WireFault> {
    let carried = carried_request(alloc)?;
    stands_with_macs(alloc, &[HEAD, &[2], &carried, &carried])
}

// Whether a batch of this count and these bytes is refused.
fn is_no_batch(alloc: Global, count: u8, bytes: &[u8]) -> Result<bool, AllocError> {
    let frame = parts_with_macs(alloc, &[HEAD, &[count], bytes])?;
    Ok(is_malformed(alloc, &frame))
}

// A carried request with a signature.
fn other_request(alloc: Global) -> Result<Vec<u8>, AllocError> {
    let frame = signed(alloc, REQUEST)?;
    piece(alloc, &frame)
}

fn is_no_batch_signed(alloc: Global) -> Result<bool, AllocError> {
    let other = other_request(alloc)?;
    is_no_batch(alloc, 1, &other)
}

#[test]
fn batches_stand(rt: HostRuntime) -> Result<(), Fail> {
    assert!(rt; two_stand(rt.alloc())?);
    assert!(rt; is_no_batch(rt.alloc(), 0, b"")?);
    assert!(rt; is_no_batch_signed(rt.alloc())?);
    Ok(())
}

#[test]
fn view_changes_stand(rt: HostRuntime) -> Result<(), Fail> {
    let body = joined(rt.alloc(), VIEW_CHANGE)?;
    assert!(rt; stands_signed(rt.alloc(), &body)?);
    Ok(())
}

fn stands_by(alloc: Global, body: &[u8], key: u8) -> Result<bool, WireFault> {
    let frame = signed_by(alloc, body, key)?;
    stands(alloc, &frame)
}

fn is_no_key(alloc: Global, body: &[u8], key: u8) -> Result<bool, AllocError> {
    let frame = signed_by(alloc, body, key)?;
    Ok(is_malformed(alloc, &frame))
}

// The first one, the last one and the next.
fn has_64_keys(alloc: Global, body: &[u8]) -> Result<bool, WireFault> {
    Ok(stands_by(alloc, body, 0)? && stands_by(alloc, body, 63)? && is_no_key(alloc, body, 64)?)
}

#[test]
fn the_keys_of_signatures_are_64(rt: HostRuntime) -> Result<(), Fail> {
    let body = joined(rt.alloc(), VIEW_CHANGE)?;
    assert!(rt; has_64_keys(rt.alloc(), &body)?);
    Ok(())
}

#[test]
fn a_view_change_cut(rt: HostRuntime) -> Result<(), Fail> {
    let frame = signed_parts(rt.alloc(), VIEW_CHANGE)?;
    assert!(rt; fronts_are_refused(rt.alloc(), &frame, 0, frame.len()));
    Ok(())
}

#[test]
fn new_views_stand(rt: HostRuntime) -> Result<(), Fail> {
    let body = new_view(rt.alloc())?;
    assert!(rt; stands_signed(rt.alloc(), &body)?);
    Ok(())
}

// The body of a new view that carries a view change with MACs.
fn other_new_view(alloc: Global) -> Result<Vec<u8>, AllocError> {
    let change = parts_with_macs(alloc, VIEW_CHANGE)?;
    new_view_of(alloc, &change)
}

#[test]
fn no_new_view_of_macs(rt: HostRuntime) -> Result<(), Fail> {
    let body = other_new_view(rt.alloc())?;
    assert!(rt; needs_macs(rt.alloc(), &body)?);
    Ok(())
}

// Whether the frame of a new view is none if it is cut within this part of its 33,600 bytes. The body ends before
// byte 17,022.
fn cut_new_view(alloc: Global, from: usize, to: usize) -> Result<bool, AllocError> {
    let body = new_view(alloc)?;
    let frame = signed(alloc, &body)?;
    Ok(frame.len() == 33_600 && fronts_are_refused(alloc, &frame, from, to))
}

#[test]
fn a_new_view_cut_in_its_body(rt: HostRuntime) -> Result<(), Fail> {
    assert!(rt; cut_new_view(rt.alloc(), 0, 17_022)?);
    Ok(())
}

// The body is read again at each cut after it, so these take longer.
#[test]
fn a_new_view_cut_in_its_authenticator(rt: HostRuntime) -> Result<(), Fail> {
    assert!(rt; cut_new_view(rt.alloc(), 17_022, 21_200)?);
    Ok(())
}

#[test]
fn a_new_view_cut_in_its_authenticator_further(rt: HostRuntime) -> Result<(), Fail> {
    assert!(rt; cut_new_view(rt.alloc(), 21_200, 25_400)?);
    Ok(())
}

#[test]
fn a_new_view_cut_in_its_authenticator_late(rt: HostRuntime) -> Result<(), Fail> {
    assert!(rt; cut_new_view(rt.alloc(), 25_400, 29_500)?);
    Ok(())
}

#[test]
fn a_new_view_cut_near_its_end(rt: HostRuntime) -> Result<(), Fail> {
    assert!(rt; cut_new_view(rt.alloc(), 29_500, 33_600)?);
    Ok(())
}
