//! Client 0 among four replicas, of which one may be faulty, and its outputs.

ghost use Rattle.std.specs.Prelude.{◌≡◌, false, IfSome};
ghost use Rattle.wire_format.specs.Spelling.{IsBody, is_signed};
ghost use Rattle.wire_format.specs.Views.{body_data, message_data};

use crate::rings::own_ring;
use authenticator::SealFault;
use client_cert::{Client, Event, InvokeFault};
use events::{Output, Outputs, Stop};
use hex::FromHex;
use sha2::{Digest, Sha256};
use signing::PublicKeys;
use std::alloc::Global;
use terms::{ClientId, Mode, NoMemory, Number, Party, ReplicaId, Timestamp};
use test_bytes::{read_op, seed};
use tuple_codec::{Answer, Op};
use wire::{Body, Message, Reply};

const CLIENT: ClientId = ClientId { number: 0 };

/// out (1)
pub const OUT: &[u8] = b"\x21\x01\x01\0\0\0\0\0\0\0\x01";

/// rdp (*)
pub const RDP: &[u8] = b"\x22\x01\x10";

/// rdAll 64 (*)
pub const RD_ALL: &[u8] = b"\x25\x40\x01\x10";

// By Python's hashlib and hmac, over docs/formats.md: the SHA-256 of the frames of requests with timestamp 1, each with
// a MAC for each of four replicas, under the seed 00 01 .. 1f.
pub const OUT_ORDERED: &str = "b3fcc2a0b2ecee83d20e75fc4c640da5d1ce29112d0c620d4db87dcd9dbeae1b";

// The same with timestamp 2.
pub const OUT_SECOND: &str = "ac462afb423192779ab90ac40c54b22cd79bd23ac6c1eb149db98823e2e7a7be";

pub const RDP_READ: &str = "12869a10a4ece61c87b66f356ededd9613201038ba85a87f1986637df5eb1aa7";

pub const RDP_ORDERED: &str = "d945accd23a840f78f80e1e466443cc5c2da8671173325e465595c5c8ff08f69";

pub const RD_ALL_READ: &str = "087e3986665aca92c9f278992055c4d77732636a057d251dfd802a008f255ea9";

/// An input of a client: a replica's reply, with the number of its state, or the time to send again.
#[derive(Clone, Copy)]
pub enum Input {
    /// Read-only: absent.
    Read(u8, u64),
    /// Read-only: done.
    ReadDone(u8, u64),
    /// Ordered: absent.
    Ordered(u8, u64),
    /// Ordered: done.
    OrderedDone(u8, u64),
    /// Ordered: done, to timestamp 2.
    Next(u8, u64),
    Retry,
}

/// The client's output for it.
#[derive(Clone, Copy)]
pub enum Given<'a> {
    Nothing,
    /// A request to all replicas, by the SHA-256 of its frame.
    Asks(&'a str),
    /// The answer to the call of timestamp 1: done, else absent.
    Accepts(bool),
    /// The answer to the call of timestamp 2: done.
    AcceptsNext,
}

pub type Row<'a> = (Input, Given<'a>);

/// The client lies in a box: a function that owns all of it takes long to prove.
pub fn new_client(alloc: Global) -> Result<Box<Client>, NoMemory> {
    let publics = PublicKeys::new(alloc, &seed(), 1)?;
    let ring = own_ring(alloc, 2, Party::Client(CLIENT))?;
    Ok(Box::new(alloc, Client::new(CLIENT, 1, ring, publics))?)
}

/// The client of a later life, whose first timestamp is 2.
pub fn later_client(alloc: Global) -> Result<Box<Client>, NoMemory> {
    let publics = PublicKeys::new(alloc, &seed(), 1)?;
    let ring = own_ring(alloc, 2, Party::Client(CLIENT))?;
    let client = Client::start_above(CLIENT, 1, ring, publics, Timestamp(1));
    Ok(Box::new(alloc, client)?)
}

fn reply(sender: u8, timestamp: u64, mode: Mode, number: u64, answer: Answer<Global>) -> Body
    ensures body { IsBody (body_data result) }
    ensures unsigned { is_signed (message_data result.message) ≡ false }
{
    answer.note_valid();
    Body {
        sender: Party::Replica(ReplicaId(sender)),
        message: Message::Reply(Reply {
            client: CLIENT,
            timestamp: Timestamp(timestamp),
            kind: mode,
            number: Number(number),
            answer,
        }),
    }
}

fn reply_in(input: Input) -> Option<Body>
    ensures body { IfSome result (λ b. IsBody (body_data b)) }
    ensures unsigned { IfSome result (λ b. is_signed (message_data b.message) ≡ false) }
{
    match input {
        Input::Read(sender, number) => {
            Some(reply(sender, 1, Mode::ReadOnly, number, Answer::Absent))
        }
        Input::ReadDone(sender, number) => {
            Some(reply(sender, 1, Mode::ReadOnly, number, Answer::Done))
        }
        Input::Ordered(sender, number) => {
            Some(reply(sender, 1, Mode::Ordered, number, Answer::Absent))
        }
        Input::OrderedDone(sender, number) => {
            Some(reply(sender, 1, Mode::Ordered, number, Answer::Done))
        }
        Input::Next(sender, number) => {
            Some(reply(sender, 2, Mode::Ordered, number, Answer::Done))
        }
        Input::Retry => None,
    }
}

fn sealed(alloc: Global, body: &Body) -> Result<Option<Vec<u8>>, SealFault>
    requires body { IsBody (body_data body.now) }
    requires unsigned { is_signed (message_data body.now.message) ≡ false }
{
    match own_ring(alloc, 2, body.sender) {
        Ok(mut ring) => {
            let frame = ring.seal(alloc, body, &[Party::Client(CLIENT)]);
            drop(ring);
            Ok(Some(frame?))
        }
        Err(NoMemory) => Err(SealFault::NoMemory),
    }
}

/// The frame of the reply that comes, if one does. The body is dropped by a call, as are frames and outputs below: a
/// drop at the function's end has a case for each kind of message.
pub fn frame_in(alloc: Global, input: Input) -> Result<Option<Vec<u8>>, SealFault> {
    match reply_in(input) {
        None => Ok(None),
        Some(body) => {
            let frame = sealed(alloc, &body);
            drop(body);
            frame
        }
    }
}

/// The client's outputs for a frame that comes, or else for the time to send again.
pub fn step(client: &mut Client, alloc: Global, frame: &Option<Vec<u8>>) -> Result<Outputs, Stop> {
    match frame {
        None => client.step(alloc, Event::Retry),
        Some(frame) => client.step(alloc, Event::Got(frame.as_slice())),
    }
}

fn gives_for(
    client: &mut Client,
    alloc: Global,
    frame: &Option<Vec<u8>>,
    given: Given<'_>,
) -> Result<bool, NoMemory> {
    match step(client, alloc, frame) {
        Ok(outputs) => Ok(is_given(outputs, given)),
        Err(Stop::NoMemory) => Err(NoMemory),
        Err(Stop::Stopped) => Ok(false),
    }
}

/// Whether the client gives this for the input.
pub fn gives(
    client: &mut Client,
    alloc: Global,
    (input, given): Row<'_>,
) -> Result<bool, NoMemory> {
    match frame_in(alloc, input) {
        Ok(frame) => {
            let is_right = gives_for(client, alloc, &frame, given);
            drop(frame);
            is_right
        }
        Err(SealFault::NoMemory) => Err(NoMemory),
        Err(SealFault::TooLarge) => Ok(false),
    }
}

fn calls(
    client: &mut Client,
    alloc: Global,
    op: Op<Global>,
    first: &str,
) -> Result<bool, NoMemory> {
    match client.invoke(alloc, op) {
        Ok(outputs) => Ok(is_given(outputs, Given::Asks(first))),
        Err(InvokeFault::NoMemory) => Err(NoMemory),
        Err(_) => Ok(false),
    }
}

/// Whether a call of the operation of these bytes asks for it by a frame of this digest.
pub fn asks(
    client: &mut Client,
    alloc: Global,
    text: &[u8],
    first: &str,
) -> Result<bool, NoMemory> {
    match read_op(alloc, text) {
        Some(op) => calls(client, alloc, op, first),
        None => Err(NoMemory),
    }
}

fn has_digest(frame: &[u8], digits: &str) -> bool {
    <[u8; 32]>::from_hex(digits).ok() == Some(Sha256::digest(frame))
}

fn is_answer(answer: &Answer<Global>, is_done: bool) -> bool {
    match answer {
        Answer::Done => is_done,
        Answer::Absent => !is_done,
        _ => false,
    }
}

fn are_given(outputs: &[Output], given: Given<'_>) -> bool {
    match (outputs, given) {
        ([], Given::Nothing) => true,
        ([Output::Send(receivers, frame)], Given::Asks(digits)) => {
            receivers.len() == 4 && has_digest(frame.as_slice(), digits)
        }
        ([Output::Accepted(timestamp, answer)], Given::Accepts(is_done)) => {
            timestamp.0 == 1 && is_answer(answer, is_done)
        }
        ([Output::Accepted(timestamp, answer)], Given::AcceptsNext) => {
            timestamp.0 == 2 && is_answer(answer, true)
        }
        _ => false,
    }
}

/// Whether these outputs are the expected ones.
pub fn is_given(outputs: Outputs, given: Given<'_>) -> bool {
    let is_right = are_given(outputs.as_slice(), given);
    drop(outputs);
    is_right
}
