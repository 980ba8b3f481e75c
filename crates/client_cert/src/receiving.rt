//! The replies that a client receives, in the bytes of their frames.

ghost use Rattle.std.specs.Prelude.{◌≡◌, ◌≤◌, IfOk, length, drop, slice_index};
ghost use Rattle.terms.specs.Parties.{client_party};
ghost use Rattle.byteorder.specs.Endian.{big_number};
ghost use Rattle.client_cert.specs.Steps.{TurnsTo};
ghost use Rattle.client_cert.specs.Receiving.{AuthenticatesReply, IsBallotOf, IsAnswerIn, SpellsAnswer, is_for};
ghost use Rattle.wire.specs.Requests.{mode_of_byte};

use crate::ballots::Ballot;
use crate::call::{Call, Next};
use authenticator::Ring;
use byteorder::{BigEndian, ByteOrder};
use events::Stop;
use std::alloc::Global;
use terms::{ClientId, Mode, Number, Party, Timestamp};
use tuple_codec::{Answer, Bad, decode_result};
use wire::{judge, mode_of_byte};

/// A reply to the open call, as it stands in the bytes of its frame.
#[derive(Clone, Copy, Drop)]
pub(crate) struct ReceivedReply<'b> {
    pub(crate) sender: u16,
    pub(crate) mode: Mode,
    pub(crate) number: Number,
    /// The bytes of its answer.
    pub(crate) text: &'b [u8],
}

/// The consequence of bytes.
#[derive(Drop)]
pub(crate) enum Turned {
    Nothing,
    Ask,
    Accept(Answer<Global>),
}

/// Counts the bytes as a reply to the open call, if they are one, and tells the consequence. Only the answer that is
/// accepted is decoded.
pub(crate) fn weigh(
    ring: &mut Ring,
    alloc: Global,
    client: ClientId,
    faults: u8,
    timestamp: Timestamp,
    call: &mut Call,
    bytes: &[u8],
) -> Result<Turned, Stop>
    requires faults { faults ≡ ring.old.faults }
    requires few { faults ≤ 3 }
    ensures weighs { IfOk result (TurnsTo ring.old client timestamp call.old bytes.now call.new) }
    ensures same { ring.new ≡ ring.old }
{
    match authenticate_reply(ring, client, timestamp, bytes) {
        None => Ok(Turned::Nothing),
        Some(authentic) => {
            let ballot = ballot_of(alloc, authentic.number, authentic.text)?;
            call.note(authentic.sender, authentic.mode, ballot)?;
            match call.next(faults, authentic.mode, authentic.sender) {
                Next::Accept => Ok(Turned::Accept(answer_in(alloc, authentic.text)?)),
                Next::AskOrdered => Ok(Turned::Ask),
                Next::Wait => Ok(Turned::Nothing),
            }
        }
    }
}

// The reply to the client's call of this timestamp that the client receives from the bytes, if it receives one. They
// are judged where they lie. A late reply to an earlier call is known by its timestamp, so no MAC of it is tested.
fn authenticate_reply<'b>(
    ring: &mut Ring,
    client: ClientId,
    timestamp: Timestamp,
    bytes: &'b [u8],
) -> Option<ReceivedReply<'b>>
    ensures receives { AuthenticatesReply ring.old client timestamp bytes.now result }
    ensures same { ring.new ≡ ring.old }
{
    if !is_for(bytes, client, timestamp) {
        return None;
    }
    let Ok(header) = judge(bytes) else {
        return None;
    };
    let sender = header.sender.number();
    let me = Party::Client(client);
    if sender == me.number() {
        return None;
    }
    if ring.refusal(&header, me).is_some() {
        return None;
    }
    Some(reply_in(sender, header.text))
}

// Whether the bytes have the type of replies, and this client and timestamp in the places of a reply's.
fn is_for(bytes: &[u8], client: ClientId, timestamp: Timestamp) -> bool
    ensures { result ≡ is_for (client_party client.number) timestamp.0 bytes.now }
{
    bytes.len() >= 17
        && bytes[4] == 0x48
        && BigEndian::read_u16(&bytes[7..]) == Party::Client(client).number()
        && BigEndian::read_u64(&bytes[9..]) == timestamp.0
}

// The reply of the body in this text: its mode follows type, sender, client and timestamp, its number the mode, and
// its answer the number.
fn reply_in(sender: u16, text: &[u8]) -> ReceivedReply<'_>
    requires { 22 ≤ length text.now }
    ensures sender { result.sender ≡ sender }
    ensures mode { result.mode ≡ mode_of_byte (slice_index text.now 13) }
    ensures number { result.number.0 ≡ big_number 8 (drop 14 text.now) }
    ensures text { result.text.now ≡ drop 22 text.now }
{
    ReceivedReply {
        sender,
        mode: mode_of_byte(text[13]),
        number: Number(BigEndian::read_u64(&text[14..])),
        text: &text[22..],
    }
}

fn ballot_of(alloc: Global, number: Number, text: &[u8]) -> Result<Ballot, Stop>
    ensures { IfOk result (IsBallotOf number text.now) }
{
    let text = Vec::from_slice(alloc, text)?;
    Ok(Ballot::new(number, text))
}

// The answer that the text spells.
fn answer_in(alloc: Global, text: &[u8]) -> Result<Answer<Global>, Stop>
    requires { SpellsAnswer text.now }
    ensures { IfOk result (IsAnswerIn text.now) }
{
    match decode_result(alloc, text) {
        Ok((answer, _)) => Ok(answer),
        Err(Bad::NoMemory) => Err(Stop::NoMemory),
        Err(Bad::Malformed) => unreachable!(),
    }
}
