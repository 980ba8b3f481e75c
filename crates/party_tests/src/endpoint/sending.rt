//! The frames that replica 0 sends. The SHA-256 of each frame comes from Python's hashlib and hmac, by
//! docs/formats.md, under the seed 00 01 .. 1f.

ghost use Rattle.std.specs.Prelude.{◌≡◌, false};
ghost use Rattle.wire_format.specs.Spelling.{IsMessage, is_signed};
ghost use Rattle.wire_format.specs.Views.{message_data};

use crate::answers::{all_hold, holds};
use crate::endpoint::endpoints::{DIGEST, new_endpoint, signed, without_frame};
use crate::rings::own_ring;
use authenticator::SealFault;
use events::Output;
use frame_endpoint::{
    Endpoint, SendFault, checkpoint_message, commit_message, fetch_message, meta_message,
    page_message, prepare_message, reply_message, seal_for_one,
};
use hex::FromHex;
use sha2::{Digest, Sha256};
use std::alloc::Global;
use terms::{ClientId, Level, Mode, NoMemory, Number, Party, ReplicaId, Timestamp, View};
use tuple_codec::Answer;
use wire::Message;

static OTHERS: [u16; 3] = [1, 2, 3];

const PREPARE: &str = "ed346d5b1189fd13cbde06177aed964aed59b7b253762074ede2c0c59bca5b85";

const COMMIT: &str = "52676b9c7df285ce26a6bb864c5d6a74861a0a11c3145336a678c1fdad9fb7b5";

const CHECKPOINT: &str = "8d18b29508b9114afb39e40782bec47cb55397c729245059bd0e825cbffd3167";

const FETCH: &str = "16718046eec6a3daa0963d7c3f7a77ae0bb88f330e809dfdd7c8ad5bf6a5ad5f";

const META_OF_ROOT: &str = "ac1c6f1726a0a2a9fba12f9f49b14a0f88e350ea248feeb71df85660af4469e3";

const META_OF_PART: &str = "05daa8fb9927f083660dae6e2df19cb056a60d64917b7b0e886d267337664bb9";

const PAGE: &str = "476653c54668fbec82905bb4350c30b1679816518889e0612aac3f465cd35715";

const REPLY: &str = "fb4e59e23b66e71f72cef9216a188587d3568eb1cfa91857817f3326c144ddc5";

const VIEW_CHANGE: &str = "7b8979d408cce1f333c43b2f1d6b54e6181135cf389923a25d3955d0047b12a4";

fn are_numbers(parties: &[Party], numbers: &[u16]) -> bool {
    for (i, party) in parties.iter().enumerate() {
        if numbers.get(i) != Some(&party.number()) {
            return false;
        }
    }
    parties.len() == numbers.len()
}

// Whether it goes to these parties, and its bytes have this digest.
fn is_sent(output: &Output, receivers: &[u16], digits: &str) -> bool {
    match output {
        Output::Send(parties, frame) => {
            let code = Sha256::digest(frame.as_slice());
            are_numbers(parties, receivers) && <[u8; 32]>::from_hex(digits).ok() == Some(code)
        }
        _ => false,
    }
}

// An output is dropped by a call: a drop at the function's end has a case for each kind of output.
fn is_sent_once(output: Output, receivers: &[u16], digits: &str) -> bool {
    let is_right = is_sent(&output, receivers, digits);
    drop(output);
    is_right
}

// Whether the sent frame goes to these parties and has these bytes.
fn is_outgoing(
    sent: Result<Output, SealFault>,
    receivers: &[u16],
    digits: &str,
) -> Result<bool, NoMemory> {
    match sent {
        Ok(output) => Ok(is_sent_once(output, receivers, digits)),
        Err(SealFault::NoMemory) => Err(NoMemory),
        Err(SealFault::TooLarge) => Ok(false),
    }
}

// Whether the message goes to all others by these bytes.
pub fn goes_out(
    endpoint: &mut Endpoint,
    alloc: Global,
    message: Message,
    digits: &str,
) -> Result<bool, NoMemory>
    requires said { IsMessage (message_data message) }
    requires unsigned { is_signed (message_data message) ≡ false }
{
    is_outgoing(endpoint.send_to_others(alloc, message), &OTHERS, digits)
}

// A message a function, since each way out of one drops all messages that it owns.
fn prepare_goes_out(endpoint: &mut Endpoint, alloc: Global) -> Result<bool, NoMemory> {
    let prepare = prepare_message(View(0), Number(1), DIGEST);
    goes_out(endpoint, alloc, prepare, PREPARE)
}

fn first_commit() -> Message
    ensures said { IsMessage (message_data result) }
    ensures unsigned { is_signed (message_data result) ≡ false }
{
    commit_message(View(0), Number(1), DIGEST)
}

fn commit_goes_out(endpoint: &mut Endpoint, alloc: Global) -> Result<bool, NoMemory> {
    goes_out(endpoint, alloc, first_commit(), COMMIT)
}

fn checkpoint_goes_out(endpoint: &mut Endpoint, alloc: Global) -> Result<bool, NoMemory> {
    let checkpoint = checkpoint_message(Number(16), DIGEST);
    goes_out(endpoint, alloc, checkpoint, CHECKPOINT)
}

fn fetch_goes_out(endpoint: &mut Endpoint, alloc: Global) -> Result<bool, NoMemory> {
    let fetch = fetch_message(Number(16), Level::Inner, 31);
    goes_out(endpoint, alloc, fetch, FETCH)
}

// The digest i has the byte i 32 times.
fn digests() -> [[u8; 32]; 32] {
    let mut digests = [DIGEST; 32];
    for i in 0..32 {
        digests[i] = [i as u8; 32];
    }
    digests
}

fn meta_of_root_goes_out(endpoint: &mut Endpoint, alloc: Global) -> Result<bool, NoMemory> {
    match meta_message(alloc, Number(16), Level::Root, 0, &digests()) {
        Ok(meta) => goes_out(endpoint, alloc, meta, META_OF_ROOT),
        Err(NoMemory) => Err(NoMemory),
    }
}

// Of the last inner part.
fn meta_of_part_goes_out(endpoint: &mut Endpoint, alloc: Global) -> Result<bool, NoMemory> {
    match meta_message(alloc, Number(16), Level::Inner, 31, &digests()) {
        Ok(meta) => goes_out(endpoint, alloc, meta, META_OF_PART),
        Err(NoMemory) => Err(NoMemory),
    }
}

fn page_goes_out(endpoint: &mut Endpoint, alloc: Global) -> Result<bool, NoMemory> {
    let page = page_message(Number(16), 1023, b"text".to_vec(alloc)?);
    goes_out(endpoint, alloc, page, PAGE)
}

fn all_go_out(endpoint: &mut Endpoint, alloc: Global) -> Result<bool, NoMemory> {
    all_hold(&[
        Ok(endpoint.me().0 == 0),
        prepare_goes_out(endpoint, alloc),
        commit_goes_out(endpoint, alloc),
        checkpoint_goes_out(endpoint, alloc),
        fetch_goes_out(endpoint, alloc),
        meta_of_root_goes_out(endpoint, alloc),
        meta_of_part_goes_out(endpoint, alloc),
        page_goes_out(endpoint, alloc),
    ])
}

fn new_endpoint_sends_all(alloc: Global) -> Result<bool, NoMemory> {
    let mut endpoint = new_endpoint(alloc, 0)?;
    let answer = all_go_out(&mut *endpoint, alloc);
    drop(endpoint);
    answer
}

#[test]
fn messages_for_all_others(rt: HostRuntime) {
    holds(&rt, new_endpoint_sends_all(rt.alloc()));
}

const CLIENT: ClientId = ClientId { number: 0 };

// To the first request of the client.
fn reply() -> Message
    ensures said { IsMessage (message_data result) }
    ensures unsigned { is_signed (message_data result) ≡ false }
{
    reply_message(CLIENT, Timestamp(1), Mode::Ordered, Number(1), Answer::Done)
}

// Whether the reply goes to the client alone, by an endpoint.
fn reply_goes_out(alloc: Global) -> Result<bool, NoMemory> {
    let mut endpoint = new_endpoint(alloc, 0)?;
    let sent = endpoint.send_to(alloc, reply(), Party::Client(CLIENT));
    drop(endpoint);
    is_outgoing(sent, &[256], REPLY)
}

// The same by a ring.
fn reply_goes_out_by_ring(alloc: Global) -> Result<bool, NoMemory> {
    let mut ring = own_ring(alloc, 2, Party::Replica(ReplicaId(0)))?;
    let sent = seal_for_one(
        &mut ring,
        alloc,
        ReplicaId(0),
        reply(),
        Party::Client(CLIENT),
    );
    drop(ring);
    is_outgoing(sent, &[256], REPLY)
}

#[test]
fn a_reply(rt: HostRuntime) {
    holds(
        &rt,
        all_hold(&[
            reply_goes_out(rt.alloc()),
            reply_goes_out_by_ring(rt.alloc()),
        ]),
    );
}

// A frame has at most 4,194,304 bytes: here those of the text, 17 before it and 104 after it.
fn refuses_page(endpoint: &mut Endpoint, alloc: Global) -> Result<bool, NoMemory> {
    let page = page_message(Number(16), 0, vec![in alloc; 0; 4_194_184]?);
    match endpoint.send_to_others(alloc, page) {
        Ok(output) => {
            drop(output);
            Ok(false)
        }
        Err(SealFault::TooLarge) => Ok(true),
        Err(SealFault::NoMemory) => Err(NoMemory),
    }
}

fn new_endpoint_refuses_page(alloc: Global) -> Result<bool, NoMemory> {
    let mut endpoint = new_endpoint(alloc, 0)?;
    let answer = refuses_page(&mut *endpoint, alloc);
    drop(endpoint);
    answer
}

#[test]
fn a_page_too_long(rt: HostRuntime) {
    holds(&rt, new_endpoint_refuses_page(rt.alloc()));
}

// Whether the view change's frame goes to all others.
fn frame_goes_out(endpoint: &Endpoint, alloc: Global, frame: &[u8]) -> Result<bool, NoMemory> {
    match endpoint.send_frame_to_others(alloc, frame) {
        Ok(output) => Ok(is_sent_once(output, &OTHERS, VIEW_CHANGE)),
        Err(NoMemory) => Err(NoMemory),
    }
}

fn spends_one(endpoint: &mut Endpoint, alloc: Global) -> Result<bool, NoMemory> {
    match signed(endpoint, alloc) {
        Ok(frame) => {
            drop(frame);
            Ok(true)
        }
        Err(fault) => without_frame(fault),
    }
}

fn has_spent_all(endpoint: &mut Endpoint, alloc: Global) -> Result<bool, NoMemory> {
    match signed(endpoint, alloc) {
        Ok(frame) => {
            drop(frame);
            Ok(false)
        }
        Err(SendFault::KeysSpent) => Ok(true),
        Err(fault) => without_frame(fault),
    }
}

// Whether no key is left after so many more.
fn spends(endpoint: &mut Endpoint, alloc: Global, count: u8) -> Result<bool, NoMemory> {
    for _ in 0..count {
        if !spends_one(endpoint, alloc)? {
            return Ok(false);
        }
    }
    has_spent_all(endpoint, alloc)
}

// The first frame may go out at any time.
fn spends_others(endpoint: &mut Endpoint, alloc: Global, first: &[u8]) -> Result<bool, NoMemory> {
    all_hold(&[
        frame_goes_out(endpoint, alloc, first),
        spends(endpoint, alloc, 63),
        frame_goes_out(endpoint, alloc, first),
    ])
}

// By the first key, and then by the others until all 64 are spent.
fn spends_all(endpoint: &mut Endpoint, alloc: Global) -> Result<bool, NoMemory> {
    match signed(endpoint, alloc) {
        Ok(first) => {
            let answer = spends_others(endpoint, alloc, &first);
            drop(first);
            answer
        }
        Err(fault) => without_frame(fault),
    }
}

fn new_endpoint_spends_all(alloc: Global) -> Result<bool, NoMemory> {
    let mut endpoint = new_endpoint(alloc, 0)?;
    let answer = spends_all(&mut *endpoint, alloc);
    drop(endpoint);
    answer
}

#[test]
fn each_signed_message_spends_a_key(rt: HostRuntime) {
    holds(&rt, new_endpoint_spends_all(rt.alloc()));
}

// The output for the first commit of replica 0, at the second try if memory ran out at the first one.
fn commit_output(endpoint: &mut Endpoint, alloc: Global) -> Result<Output, SealFault> {
    match endpoint.send_to_others(alloc, first_commit()) {
        Err(SealFault::NoMemory) => endpoint.send_to_others(alloc, first_commit()),
        first => first,
    }
}

fn made(alloc: Global) -> Result<Box<Endpoint>, NoMemory> {
    match new_endpoint(alloc, 0) {
        Ok(endpoint) => Ok(endpoint),
        Err(_) => new_endpoint(alloc, 0),
    }
}

fn commit_goes_out_again(alloc: Global) -> Result<bool, NoMemory> {
    let mut endpoint = made(alloc)?;
    let sent = commit_output(&mut *endpoint, alloc);
    drop(endpoint);
    is_outgoing(sent, &OTHERS, COMMIT)
}

// Passes whichever growth is refused, as by `tools/growths`: the endpoint is as before.
#[test]
fn refused_memory(rt: HostRuntime) {
    holds(&rt, commit_goes_out_again(rt.alloc()));
}
