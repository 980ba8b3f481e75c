//! Endpoints of four replicas, of which one may be faulty, and their frames.

ghost use Rattle.std.specs.Prelude.{◌≡◌, ◌≤◌, true, false};
ghost use Rattle.wire_format.specs.Spelling.{IsMessage, is_signed};
ghost use Rattle.wire_format.specs.Views.{message_data};

use crate::rings::own_ring;
use authenticator::{SealFault, signing_seed};
use events::Output;
use frame_endpoint::{Endpoint, SendFault, view_change_message};
use signing::{PublicKeys, Signer};
use std::alloc::Global;
use terms::{Digest, NoMemory, Number, Party, ReplicaId, View};
use test_bytes::seed;
use wire::{Message, ViewChange};

pub const DIGEST: Digest = [7; 32];

// In a box: a function that owns all of an endpoint takes long to prove. There are two clients.
pub fn new_endpoint(alloc: Global, me: u8) -> Result<Box<Endpoint>, NoMemory>
    requires { me ≤ 3 }
{
    let seed = seed();
    let me = ReplicaId(me);
    let party = Party::Replica(me);
    let publics = PublicKeys::new(alloc, &seed, 1)?;
    let ring = own_ring(alloc, 2, party)?;
    let signer = Signer::from_seed(&signing_seed(&seed, party));
    Ok(Box::new(alloc, Endpoint::new(me, 1, ring, publics, signer))?)
}

// A copy of the bytes that an output sends; none of another one.
fn sent(alloc: Global, output: Output) -> Result<Vec<u8>, NoMemory> {
    match output {
        Output::Send(_, frame) => Ok(Vec::from_slice(alloc, frame.as_slice())?),
        _ => Ok(Vec::new(alloc)),
    }
}

// The frame of a message for all other replicas, or an empty one if it is too long.
pub fn frame_for_others(
    endpoint: &mut Endpoint,
    alloc: Global,
    message: Message,
) -> Result<Vec<u8>, NoMemory>
    requires said { IsMessage (message_data message) }
    requires unsigned { is_signed (message_data message) ≡ false }
{
    match endpoint.send_to_others(alloc, message) {
        Ok(output) => sent(alloc, output),
        Err(SealFault::NoMemory) => Err(NoMemory),
        Err(SealFault::TooLarge) => Ok(Vec::new(alloc)),
    }
}

// To view 1, with nothing to tell.
fn view_change(alloc: Global) -> Message
    ensures said { IsMessage (message_data result) }
    ensures signed { is_signed (message_data result) ≡ true }
{
    view_change_message(ViewChange {
        view: View(1),
        low: Number(0),
        checkpoints: Vec::new(alloc),
        prepared: Vec::new(alloc),
        pre_prepared: Vec::new(alloc),
    })
}

// The frame of a view change, signed by the sender's next key.
pub fn signed(endpoint: &mut Endpoint, alloc: Global) -> Result<Vec<u8>, SendFault> {
    endpoint.sign(alloc, view_change(alloc))
}

// The answer of a test that lacks the frame it needs.
pub fn without_frame(fault: SendFault) -> Result<bool, NoMemory> {
    match fault {
        SendFault::NoMemory => Err(NoMemory),
        SendFault::TooLarge | SendFault::KeysSpent => Ok(false),
    }
}
