//! Whether the replicas receive a prepare that replica 0 sends, and its view change.

use crate::answers::{all_hold, holds};
use crate::endpoint::endpoints::{DIGEST, frame_for_others, new_endpoint, signed, without_frame};
use frame_endpoint::{Endpoint, prepare_message};
use std::alloc::Global;
use terms::{NoMemory, Number, View};
use wire::{Body, Message};

// The hearer, the changed byte of the frame, if any, and whether the hearer receives the prepare.
type Row = (u8, Option<usize>, bool);

// The body stands at 4 to 54, the MACs for replicas 1, 2 and 3 at 59, 93 and 127, each after its receiver.
static ROWS: [Row; 12] = [
    (1, None, true),
    (2, None, true),
    (3, None, true),
    // Its own.
    (0, None, false),
    // The length, the type, the sender, the digest.
    (1, Some(3), false),
    (1, Some(4), false),
    (2, Some(6), false),
    (1, Some(54), false),
    // The MAC for another replica, and its own.
    (1, Some(93), true),
    (2, Some(93), false),
    // The receiver, so that there is none for replica 3.
    (3, Some(126), false),
    (1, Some(56), false),
];

fn is_prepare(body: &Body) -> bool {
    match &body.message {
        Message::Prepare(prepare) => {
            body.sender.number() == 0 && prepare.number.0 == 1 && prepare.digest == DIGEST
        }
        _ => false,
    }
}

fn receives_prepare(
    endpoint: &mut Endpoint,
    alloc: Global,
    bytes: &[u8],
) -> Result<bool, NoMemory> {
    // Dropped by a call: a drop at the function's end has a case for each kind of message.
    let authentic = endpoint.authenticate(alloc, bytes)?;
    let is_right = matches!(&authentic, Some(body) if is_prepare(body));
    drop(authentic);
    Ok(is_right)
}

// The prepare's frame.
fn prepare_frame(alloc: Global) -> Result<Vec<u8>, NoMemory> {
    let mut sender = new_endpoint(alloc, 0)?;
    let prepare = prepare_message(View(0), Number(1), DIGEST);
    let frame = frame_for_others(&mut *sender, alloc, prepare);
    drop(sender);
    frame
}

// Turns the lowest bit of a byte.
fn change(bytes: &mut [u8], at: Option<usize>) {
    if let Some(at) = at {
        if at < bytes.len() {
            bytes[at] ^= 1;
        }
    }
}

// Whether it is so for the row; the frame stays as it was.
fn agrees(
    alloc: Global,
    frame: &mut [u8],
    (me, at, is_authentic_to): Row,
) -> Result<bool, NoMemory> {
    if me > 3 || frame.len() != 159 {
        return Ok(false);
    }
    let mut endpoint = new_endpoint(alloc, me)?;
    change(frame, at);
    let authentic = receives_prepare(&mut *endpoint, alloc, frame);
    change(frame, at);
    drop(endpoint);
    Ok(authentic? == is_authentic_to)
}

fn all_agree(alloc: Global, frame: &mut [u8]) -> Result<bool, NoMemory> {
    for &row in &ROWS {
        if !agrees(alloc, frame, row)? {
            return Ok(false);
        }
    }
    Ok(true)
}

fn prepare_is_heard(alloc: Global) -> Result<bool, NoMemory> {
    let mut frame = prepare_frame(alloc)?;
    let answer = all_agree(alloc, &mut frame);
    drop(frame);
    answer
}

#[test]
fn frames_with_macs(rt: HostRuntime) {
    holds(&rt, prepare_is_heard(rt.alloc()));
}

fn receives_any(endpoint: &mut Endpoint, alloc: Global, bytes: &[u8]) -> Result<bool, NoMemory> {
    let authentic = endpoint.authenticate(alloc, bytes)?;
    let is_authentic_to = authentic.is_some();
    drop(authentic);
    Ok(is_authentic_to)
}

// Whether the replica drops the frame.
fn drops(replica: &mut Endpoint, alloc: Global, frame: &[u8]) -> Result<bool, NoMemory> {
    Ok(!receives_any(replica, alloc, frame)?)
}

// The same while the byte is another one.
fn drops_changed(
    replica: &mut Endpoint,
    alloc: Global,
    frame: &mut [u8],
    at: usize,
) -> Result<bool, NoMemory> {
    change(frame, Some(at));
    let dropped = drops(replica, alloc, frame);
    change(frame, Some(at));
    dropped
}

// Whether another replica receives it, but not its sender, nor anyone if a byte of the body or of the signature is
// changed.
fn is_heard_whole(
    sender: &mut Endpoint,
    other: &mut Endpoint,
    alloc: Global,
    frame: &mut [u8],
) -> Result<bool, NoMemory> {
    all_hold(&[
        receives_any(other, alloc, frame),
        drops(sender, alloc, frame),
        drops_changed(other, alloc, frame, 14),
        drops_changed(other, alloc, frame, 16_000),
    ])
}

// Of the view change that is signed by its sender's first key.
fn receives_signed(
    sender: &mut Endpoint,
    other: &mut Endpoint,
    alloc: Global,
) -> Result<bool, NoMemory> {
    match signed(sender, alloc) {
        Ok(mut frame) => {
            let answer = is_heard_whole(sender, other, alloc, &mut frame);
            drop(frame);
            answer
        }
        Err(fault) => without_frame(fault),
    }
}

fn is_heard_by_other(sender: &mut Endpoint, alloc: Global) -> Result<bool, NoMemory> {
    let mut other = new_endpoint(alloc, 1)?;
    let answer = receives_signed(sender, &mut *other, alloc);
    drop(other);
    answer
}

fn view_change_is_heard(alloc: Global) -> Result<bool, NoMemory> {
    let mut sender = new_endpoint(alloc, 0)?;
    let answer = is_heard_by_other(&mut *sender, alloc);
    drop(sender);
    answer
}

#[test]
fn signed_frames(rt: HostRuntime) {
    holds(&rt, view_change_is_heard(rt.alloc()));
}
