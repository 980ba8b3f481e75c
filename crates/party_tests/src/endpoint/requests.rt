//! A batch of the first request of client 0, out (1), and which replicas take it as genuine.

ghost use Rattle.std.specs.Prelude.{◌≡◌, ◌≤◌, ◌∷◌, [], false, map, IfOk};
ghost use Rattle.terms.specs.Parties.{party_number};
ghost use Rattle.wire_format.specs.Spelling.{IsBatch, IsBody, IsCarried, is_ordered_request, is_signed};
ghost use Rattle.wire_format.specs.Views.{body_data, message_data};

use crate::answers::{all_hold, holds};
use crate::endpoint::endpoints::new_endpoint;
use crate::endpoint::sending::goes_out;
use crate::rings::own_ring;
use authenticator::SealFault;
use frame_endpoint::{Endpoint, pre_prepare_message};
use std::alloc::Global;
use terms::{ClientId, Mode, NoMemory, Number, Party, ReplicaId, Timestamp, View};
use tuple_codec::{Bad, decode_op};
use wire::{Batch, Body, Message, Request, is_ordered_request};

// The SHA-256 of replica 0's pre-prepare of the batch at number 1 in view 0, by Python's hashlib and hmac.
const PRE_PREPARE: &str = "7fd8420733c143bacbb1108c1e75ea8bedde1432e5da7a37bfe3e8b06fd41740";

const CLIENT: Party = Party::Client(ClientId { number: 0 });

fn replicas() -> [Party; 4]
    ensures { map party_number result ≡ 0 ∷ 1 ∷ 2 ∷ 3 ∷ [] }
{
    [
        Party::Replica(ReplicaId(0)),
        Party::Replica(ReplicaId(1)),
        Party::Replica(ReplicaId(2)),
        Party::Replica(ReplicaId(3)),
    ]
}

fn request(alloc: Global) -> Result<Body, Bad>
    ensures said { IfOk result (λ b. IsBody (body_data b)) }
    ensures unsigned { IfOk result (λ b. is_signed (message_data b.message) ≡ false) }
{
    let (op, _) = decode_op(alloc, b"\x21\x01\x01\0\0\0\0\0\0\0\x01")?;
    let message = Message::Request(Request {
        timestamp: Timestamp(1),
        mode: Mode::Ordered,
        op,
    });
    Ok(Body {
        sender: CLIENT,
        message,
    })
}

fn sealed(alloc: Global, body: &Body) -> Result<Vec<u8>, SealFault>
    requires said { IsBody (body_data body.now) }
    requires unsigned { is_signed (message_data body.now.message) ≡ false }
{
    match own_ring(alloc, 2, CLIENT) {
        Ok(mut ring) => {
            let frame = ring.seal(alloc, body, &replicas());
            drop(ring);
            frame
        }
        Err(NoMemory) => Err(SealFault::NoMemory),
    }
}

// The request's frame for the four replicas. The body is dropped by a call: a drop at the function's end has a case
// for each kind of message.
fn request_frame(alloc: Global) -> Result<Vec<u8>, SealFault> {
    match request(alloc) {
        Ok(body) => {
            let frame = sealed(alloc, &body);
            drop(body);
            frame
        }
        Err(Bad::NoMemory) => Err(SealFault::NoMemory),
        Err(Bad::Malformed) => Ok(Vec::new(alloc)),
    }
}

fn batch_of(alloc: Global, frame: Vec<u8>) -> Result<Batch, NoMemory>
    requires { IsCarried is_ordered_request frame.items }
    ensures { IfOk result (λ b. IsBatch 1 b.text.items) }
{
    Batch::of(alloc, &[frame])
}

// The answer of a test that lacks the frame it needs.
fn without_frame(fault: SealFault) -> Result<bool, NoMemory> {
    match fault {
        SealFault::NoMemory => Err(NoMemory),
        SealFault::TooLarge => Ok(false),
    }
}

// Whether the replica sends the pre-prepare of the frame's batch.
fn sends_batch(endpoint: &mut Endpoint, alloc: Global, frame: Vec<u8>) -> Result<bool, NoMemory>
    requires { IsCarried is_ordered_request frame.items }
{
    match batch_of(alloc, frame) {
        Ok(batch) => {
            let message = pre_prepare_message(View(0), Number(1), batch);
            goes_out(endpoint, alloc, message, PRE_PREPARE)
        }
        Err(NoMemory) => Err(NoMemory),
    }
}

fn batch_goes_out(
    endpoint: &mut Endpoint,
    alloc: Global,
    frame: Vec<u8>,
) -> Result<bool, NoMemory> {
    if is_ordered_request(&frame) {
        sends_batch(endpoint, alloc, frame)
    } else {
        drop(frame);
        Ok(false)
    }
}

fn request_goes_out(endpoint: &mut Endpoint, alloc: Global) -> Result<bool, NoMemory> {
    match request_frame(alloc) {
        Ok(frame) => batch_goes_out(endpoint, alloc, frame),
        Err(fault) => without_frame(fault),
    }
}

fn new_endpoint_sends_request(alloc: Global) -> Result<bool, NoMemory> {
    let mut endpoint = new_endpoint(alloc, 0)?;
    let answer = request_goes_out(&mut *endpoint, alloc);
    drop(endpoint);
    answer
}

#[test]
fn a_pre_prepare(rt: HostRuntime) {
    holds(&rt, new_endpoint_sends_request(rt.alloc()));
}

// Whether the replica takes the frame's batch as genuine.
fn takes_batch(endpoint: &mut Endpoint, alloc: Global, frame: Vec<u8>) -> Result<bool, NoMemory>
    requires { IsCarried is_ordered_request frame.items }
{
    match batch_of(alloc, frame) {
        Ok(batch) => {
            let is_genuine = endpoint.are_genuine(&batch);
            drop(batch);
            Ok(is_genuine)
        }
        Err(NoMemory) => Err(NoMemory),
    }
}

fn is_genuine(endpoint: &mut Endpoint, alloc: Global, frame: Vec<u8>) -> Result<bool, NoMemory> {
    if is_ordered_request(&frame) {
        takes_batch(endpoint, alloc, frame)
    } else {
        drop(frame);
        Ok(false)
    }
}

// Turns these bits of a byte of the MAC for replica 1.
fn change(frame: &mut [u8], turned: u8) {
    if frame.len() == 165 {
        frame[96] ^= turned;
    }
}

// Whether the replica's judgement of the request, with these bits turned, is the expected one.
fn judges(
    endpoint: &mut Endpoint,
    alloc: Global,
    turned: u8,
    expected: bool,
) -> Result<bool, NoMemory> {
    match request_frame(alloc) {
        Ok(mut frame) => {
            change(&mut frame, turned);
            Ok(is_genuine(endpoint, alloc, frame)? == expected)
        }
        Err(fault) => without_frame(fault),
    }
}

// A new endpoint for each frame.
fn new_endpoint_judges(alloc: Global, me: u8, turned: u8, expected: bool) -> Result<bool, NoMemory>
    requires { me ≤ 3 }
{
    let mut endpoint = new_endpoint(alloc, me)?;
    let answer = judges(&mut *endpoint, alloc, turned, expected);
    drop(endpoint);
    answer
}

fn judges_both(alloc: Global, me: u8) -> Result<bool, NoMemory>
    requires { me ≤ 3 }
{
    all_hold(&[
        new_endpoint_judges(alloc, me, 0, true),
        new_endpoint_judges(alloc, me, 1, me != 1),
    ])
}

fn all_judge(alloc: Global) -> Result<bool, NoMemory> {
    for me in 0..4 {
        if !judges_both(alloc, me)? {
            return Ok(false);
        }
    }
    Ok(true)
}

#[test]
fn genuine_requests(rt: HostRuntime) {
    holds(&rt, all_judge(rt.alloc()));
}
