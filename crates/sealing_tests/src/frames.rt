//! Worked frames, whose bytes come from Python's hmac and hashlib.

ghost use Rattle.std.specs.Prelude.{◌≡◌, ◌∷◌, [], false, map, IfOk};
ghost use Rattle.terms.specs.Parties.{party_number};
ghost use Rattle.wire_format.specs.Spelling.{IsBody, is_signed};
ghost use Rattle.wire_format.specs.Views.{body_data, message_data};

use crate::codes::is_code;
use authenticator::{OpenFault, Opened, Ring, SealFault};
use sha2::{Digest, Sha256};
use std::alloc::{AllocError, Global};
use std::test::Fail;
use terms::{ClientId, Mode, Party, ReplicaId, Timestamp};
use test_bytes::seed;
use tuple_codec::{Bad, Op, decode_op};
use tuple_tree::{AtomRef, ValueRef};
use wire::{Authenticator, Body, Frame, Message, ReceiverMac, Request};

pub const CLIENT: Party = Party::Client(ClientId { number: 0 });

pub const SECOND_CLIENT: Party = Party::Client(ClientId { number: 1 });

// There are two.
const THIRD_CLIENT: Party = Party::Client(ClientId { number: 2 });

pub fn replica(number: u8) -> Party {
    Party::Replica(ReplicaId(number))
}

fn replicas() -> [Party; 4]
    ensures { map party_number result ≡ 0 ∷ 1 ∷ 2 ∷ 3 ∷ [] }
{
    [
        Party::Replica(ReplicaId(0)),
        Party::Replica(ReplicaId(1)),
        Party::Replica(ReplicaId(2)),
        Party::Replica(ReplicaId(3)),
    ]
}

// The SHA-256 of the request below with a MAC for each of four replicas, under the seed 00 01 .. 1f.
const SEALED: &str = "b3fcc2a0b2ecee83d20e75fc4c640da5d1ce29112d0c620d4db87dcd9dbeae1b";

// out (1), with timestamp 1
fn request(alloc: Global, sender: Party) -> Result<Body, Bad>
    ensures said { IfOk result (λ b. IsBody (body_data b)) }
    ensures unsigned { IfOk result (λ b. is_signed (message_data b.message) ≡ false) }
{
    let (op, _) = decode_op(alloc, b"\x21\x01\x01\0\0\0\0\0\0\0\x01")?;
    let message = Message::Request(Request {
        timestamp: Timestamp(1),
        mode: Mode::Ordered,
        op,
    });
    Ok(Body { sender, message })
}

// One replica of four may be faulty, and there are two clients.
fn ring(alloc: Global) -> Ring {
    Ring::new(alloc, &seed(), 1, 2)
}

// The request's frame for one receiver. A body is dropped by a call: a drop at the function's end has a case for each
// kind of message.
fn sealed_for(
    ring: &mut Ring,
    alloc: Global,
    sender: Party,
    receiver: Party,
) -> Result<Vec<u8>, Fail> {
    let body = request(alloc, sender)?;
    let frame = ring.seal(alloc, &body, &[receiver]);
    drop(body);
    Ok(frame?)
}

// The frame of the first client's request for the four replicas.
pub fn sealed_for_all(ring: &mut Ring, alloc: Global) -> Result<Vec<u8>, Fail> {
    let body = request(alloc, CLIENT)?;
    let frame = ring.seal(alloc, &body, &replicas());
    drop(body);
    Ok(frame?)
}

// The numbers of two replicas, of which None is client 0, and the code of the request between them.
type Row<'a> = (Option<u8>, Option<u8>, &'a str);

// Python's hmac: hmac(hmac(seed, 4d || be16 from || be16 to), body), for the body
// 41 || be16 from || be64 1 || 00 || 21 01 01 || be64 1.
static ROWS: [Row<'static>; 4] = [
    (
        Some(0),
        Some(1),
        "5fc0b9193f67d74cc43c1fd5ff8c36d278d05b8629523bd931b4bddf63301d79",
    ),
    (
        Some(1),
        Some(0),
        "eb1094b7c2ad3aa760c26ec2a344a6af643dc5b412c6e1228e2765fdca1c8d02",
    ),
    (
        None,
        Some(3),
        "2f6a2ac079126dac5169d5a05779c513f6778f2a6e1e5e8d95037ceb02c1ca1f",
    ),
    (
        Some(3),
        None,
        "1856a86079d4a70e1e718732b34ceadadb928b30b7e78d406609ecc4e56f51b0",
    ),
];

fn party(number: Option<u8>) -> Party {
    match number {
        Some(number) => replica(number),
        None => CLIENT,
    }
}

// The code that ends a frame for one receiver.
fn code_of(frame: &[u8]) -> Option<[u8; 32]> {
    match frame.get(31..) {
        Some(code) => <[u8; 32]>::try_from(code).ok(),
        None => None,
    }
}

fn agrees(ring: &mut Ring, alloc: Global, (from, to, digits): Row<'_>) -> Result<bool, Fail> {
    let frame = sealed_for(ring, alloc, party(from), party(to))?;
    match code_of(frame.as_slice()) {
        Some(code) => Ok(is_code(code, digits)),
        None => Ok(false),
    }
}

#[test]
fn each_direction_has_its_key(rt: HostRuntime) -> Result<(), Fail> {
    let mut ring = ring(rt.alloc());
    // Derived at first, and then kept.
    for _ in 0..2 {
        for &row in &ROWS {
            assert!(rt; agrees(&mut ring, rt.alloc(), row)?, "{}", row.2);
        }
    }
    Ok(())
}

pub fn refusal(ring: &mut Ring, alloc: Global, bytes: &[u8], me: Party) -> Option<OpenFault> {
    ring.open(alloc, bytes, me).err()
}

// Whether the party opens it. Out of memory is no answer, and is handed on.
pub fn is_opened(
    ring: &mut Ring,
    alloc: Global,
    bytes: &[u8],
    me: Party,
) -> Result<bool, OpenFault> {
    match refusal(ring, alloc, bytes, me) {
        None => Ok(true),
        Some(OpenFault::NoMemory) => Err(OpenFault::NoMemory),
        Some(_) => Ok(false),
    }
}

fn opens_for_all(ring: &mut Ring, alloc: Global, bytes: &[u8]) -> Result<bool, OpenFault> {
    for replica in replicas() {
        if !is_opened(ring, alloc, bytes, replica)? {
            return Ok(false);
        }
    }
    Ok(true)
}

pub fn is_worked(frame: &[u8]) -> bool {
    frame.len() == 165
        && frame.starts_with(b"\0\0\0\x17\x41")
        && is_code(Sha256::digest(frame), SEALED)
}

#[test]
fn a_request_for_four_replicas(rt: HostRuntime) -> Result<(), Fail> {
    let mut ring = ring(rt.alloc());
    let frame = sealed_for_all(&mut ring, rt.alloc())?;
    assert!(rt; is_worked(&frame) && opens_for_all(&mut ring, rt.alloc(), &frame)?);
    // A party for which nothing was sealed.
    let fault = refusal(&mut ring, rt.alloc(), &frame, SECOND_CLIENT);
    assert_eq!(rt; fault, Some(OpenFault::BadMac));
    Ok(())
}

// Of ten replicas three may be faulty.
fn ring_of_ten(alloc: Global) -> Ring {
    Ring::new(alloc, &seed(), 3, 2)
}

fn ten_replicas() -> [Party; 10]
    ensures { map party_number result ≡ 0 ∷ 1 ∷ 2 ∷ 3 ∷ 4 ∷ 5 ∷ 6 ∷ 7 ∷ 8 ∷ 9 ∷ [] }
{
    [
        Party::Replica(ReplicaId(0)),
        Party::Replica(ReplicaId(1)),
        Party::Replica(ReplicaId(2)),
        Party::Replica(ReplicaId(3)),
        Party::Replica(ReplicaId(4)),
        Party::Replica(ReplicaId(5)),
        Party::Replica(ReplicaId(6)),
        Party::Replica(ReplicaId(7)),
        Party::Replica(ReplicaId(8)),
        Party::Replica(ReplicaId(9)),
    ]
}

// The frame of the first client's request for the ten replicas: two groups of four MACs, and one of two.
fn sealed_for_ten(ring: &mut Ring, alloc: Global) -> Result<Vec<u8>, Fail> {
    let body = request(alloc, CLIENT)?;
    let frame = ring.seal(alloc, &body, &ten_replicas());
    drop(body);
    Ok(frame?)
}

// The SHA-256 of that frame.
const SEALED_FOR_TEN: &str = "e0081b3d7c762e59674b9143c550be3c1f87aa606c70b2b5fc65313ac077f499";

// Whether a ring seals it so at first, when it derives its keys, and then, when it keeps them.
fn seals_for_ten(ring: &mut Ring, alloc: Global) -> Result<bool, Fail> {
    let first = sealed_for_ten(ring, alloc)?;
    let second = sealed_for_ten(ring, alloc)?;
    Ok(is_code(Sha256::digest(&first), SEALED_FOR_TEN) && first.as_slice() == second.as_slice())
}

#[test]
fn a_request_for_ten_replicas(rt: HostRuntime) -> Result<(), Fail> {
    let mut ring = ring_of_ten(rt.alloc());
    assert!(rt; seals_for_ten(&mut ring, rt.alloc())?);
    Ok(())
}

// Changes the last byte of the entry for replica 1, if the frame has its length.
fn change_entry_of_1(frame: &mut [u8]) -> bool {
    if frame.len() != 165 {
        return false;
    }
    frame[96] ^= 1;
    true
}

// Why replicas 0, 1 and 2 refuse the frame.
fn faults_of_replicas(ring: &mut Ring, alloc: Global, bytes: &[u8]) -> [Option<OpenFault>; 3] {
    [
        refusal(ring, alloc, bytes, replica(0)),
        refusal(ring, alloc, bytes, replica(1)),
        refusal(ring, alloc, bytes, replica(2)),
    ]
}

#[test]
fn each_receiver_has_its_own_entry(rt: HostRuntime) -> Result<(), Fail> {
    let mut ring = ring(rt.alloc());
    let mut frame = sealed_for_all(&mut ring, rt.alloc())?;
    assert!(rt; change_entry_of_1(&mut frame));
    let faults = faults_of_replicas(&mut ring, rt.alloc(), &frame);
    assert_eq!(rt; faults, [None, Some(OpenFault::BadMac), None]);
    Ok(())
}

// Why replica 1 refuses a request by this sender for replica 2, whole and without its last byte.
fn faults_of(
    ring: &mut Ring,
    alloc: Global,
    sender: Party,
) -> Result<[Option<OpenFault>; 2], Fail> {
    let frame = sealed_for(ring, alloc, sender, replica(2))?;
    let cut = &frame[..frame.len().saturating_sub(1)];
    Ok([
        refusal(ring, alloc, &frame, replica(1)),
        refusal(ring, alloc, cut, replica(1)),
    ])
}

#[test]
fn refusals_come_in_order(rt: HostRuntime) -> Result<(), Fail> {
    let mut ring = ring(rt.alloc());
    // Neither is the sender known nor the entry there.
    let expected = [Some(OpenFault::UnknownSender), Some(OpenFault::Malformed)];
    for sender in [replica(0), THIRD_CLIENT, replica(9)] {
        assert!(rt; faults_of(&mut ring, rt.alloc(), sender)? == expected);
    }
    Ok(())
}

#[test]
fn frames_too_long(rt: HostRuntime) -> Result<(), Fail> {
    let mut ring = ring(rt.alloc());
    let long = vec![in rt.alloc(); 0; 4_194_305]?;
    assert!(rt; refusal(&mut ring, rt.alloc(), &long, replica(1)) == Some(OpenFault::TooLarge));
    assert!(rt;
        refusal(&mut ring, rt.alloc(), &long[1..], replica(1)) == Some(OpenFault::Malformed)
    );
    Ok(())
}

// A view change to view 1 by this replica that lists nothing, with a signature of zeros: whether it verifies is not
// asked here.
fn view_change(alloc: Global, sender: u8) -> Result<Vec<u8>, AllocError> {
    let signature = Vec::from_elem(alloc, 0u8, 16_577)?;
    let mut frame = b"\0\0\0\x18\x46\0".to_vec(alloc)?;
    frame.extend_from_slice(&[sender])?;
    frame.extend_from_slice(b"\0\0\0\0\0\0\0\x01\0\0\0\0\0\0\0\0\0\0\0\0\0\x01")?;
    frame.extend_from_slice(&signature)?;
    Ok(frame)
}

fn opens_for_three(ring: &mut Ring, alloc: Global, bytes: &[u8]) -> Result<bool, OpenFault> {
    Ok(
        is_opened(ring, alloc, bytes, replica(0))?
            && is_opened(ring, alloc, bytes, replica(3))?
            && is_opened(ring, alloc, bytes, SECOND_CLIENT)?,
    )
}

fn opens_signed(ring: &mut Ring, alloc: Global) -> Result<bool, Fail> {
    let frame = view_change(alloc, 0)?;
    Ok(opens_for_three(ring, alloc, &frame)?)
}

// Nobody has the number 4.
fn fault_of_stranger(ring: &mut Ring, alloc: Global) -> Result<Option<OpenFault>, AllocError> {
    let frame = view_change(alloc, 4)?;
    Ok(refusal(ring, alloc, &frame, replica(0)))
}

#[test]
fn signed_frames_open(rt: HostRuntime) -> Result<(), Fail> {
    let mut ring = ring(rt.alloc());
    assert!(rt; opens_signed(&mut ring, rt.alloc())?);
    let fault = fault_of_stranger(&mut ring, rt.alloc())?;
    assert_eq!(rt; fault, Some(OpenFault::UnknownSender));
    Ok(())
}

// Whether they are those of replicas 0 to 3, and the bytes have the same MACs.
fn has_entries(bytes: &[u8], entries: &[ReceiverMac]) -> bool {
    for (i, entry) in entries.iter().enumerate() {
        if i >= 4 || entry.receiver.number() != i as u16 {
            return false;
        }
        if bytes.get(31 + 34 * i..63 + 34 * i) != Some(entry.mac.as_slice()) {
            return false;
        }
    }
    entries.len() == 4
}

// Whether it is out (1) with timestamp 1.
fn is_asked(message: &Message) -> bool {
    match message {
        Message::Request(request) => {
            request.timestamp.0 == 1
                && matches!(&request.mode, Mode::Ordered)
                && is_out_of_one(&request.op)
        },
        _ => false,
    }
}

fn is_out_of_one(op: &Op<Global>) -> bool {
    match op {
        Op::Out(tuple) => {
            let first = tuple.values().next();
            tuple.len() == 1 && matches!(first, Some(ValueRef::Atom(AtomRef::Number(1))))
        },
        _ => false,
    }
}

// Whether it is the request of client 0, and has the MACs of the bytes.
fn is_request(bytes: &[u8], frame: &Frame) -> bool {
    let is_proved = match &frame.authenticator {
        Authenticator::Macs(entries) => has_entries(bytes, entries),
        Authenticator::Signature(_) => false,
    };
    is_proved && is_asked(&frame.body.message) && frame.body.sender.number() == 256
}

fn body_of_client(alloc: Global) -> Result<Body, Bad>
    ensures said { IfOk result (λ b. IsBody (body_data b)) }
    ensures unsigned { IfOk result (λ b. is_signed (message_data b.message) ≡ false) }
{
    match request(alloc, CLIENT) {
        Ok(body) => Ok(body),
        Err(_) => request(alloc, CLIENT),
    }
}

// The body's frame for the four replicas, at the second try if memory ran out at the first one.
fn sealed_body(ring: &mut Ring, alloc: Global, body: &Body) -> Result<Vec<u8>, SealFault>
    requires said { IsBody (body_data body.now) }
    requires unsigned { is_signed (message_data body.now.message) ≡ false }
{
    match ring.seal(alloc, body, &replicas()) {
        Err(SealFault::NoMemory) => ring.seal(alloc, body, &replicas()),
        first => first,
    }
}

// The frame of a request for them.
fn sealed(ring: &mut Ring, alloc: Global) -> Result<Vec<u8>, Fail> {
    let body = body_of_client(alloc)?;
    let frame = sealed_body(ring, alloc, &body);
    drop(body);
    Ok(frame?)
}

fn opened(ring: &mut Ring, alloc: Global, bytes: &[u8], me: Party) -> Result<Opened, OpenFault> {
    match ring.open(alloc, bytes, me) {
        Err(OpenFault::NoMemory) => ring.open(alloc, bytes, me),
        first => first,
    }
}

fn opens(ring: &mut Ring, alloc: Global, bytes: &[u8], me: Party) -> Result<bool, OpenFault> {
    let opened = opened(ring, alloc, bytes, me)?;
    let is_right = is_request(bytes, &opened.frame) && ring.has_sender(&opened.frame.body);
    drop(opened);
    Ok(is_right)
}

fn opens_each_time(ring: &mut Ring, alloc: Global, bytes: &[u8]) -> Result<bool, OpenFault> {
    for replica in replicas() {
        if !opens(ring, alloc, bytes, replica)? {
            return Ok(false);
        }
    }
    Ok(true)
}

// Passes whichever growth is refused, as by `tools/growths`: a second try gives the same as the first one gives if
// nothing is refused, so the ring still has its seed and its parties.
#[test]
fn refusals_change_nothing(rt: HostRuntime) -> Result<(), Fail> {
    let mut ring = ring(rt.alloc());
    let frame = sealed(&mut ring, rt.alloc())?;
    assert!(rt; is_worked(&frame) && opens_each_time(&mut ring, rt.alloc(), &frame)?);
    Ok(())
}
