//! Frames with MACs.

ghost use Rattle.std.specs.Prelude.{◌≡◌, ◌≢◌, ◌+◌, ◌*◌, ◌<◌, ◌≤◌, ℕ, List, false, IfOk};
ghost use Rattle.wire_format.specs.Spelling.{IsMessage, is_signed};
ghost use Rattle.wire_format.specs.Views.{body_data, message_data};
ghost use Rattle.authenticator.specs.declared.sealed.SealFault.TheVariants as SealFault;
ghost use Rattle.authenticator.specs.Results.{SealsBody};
ghost use Rattle.authenticator.specs.Sealing.{IsSealable};
ghost use Rattle.signing.specs.Publics.{knows};
ghost use Rattle.frame_endpoint.specs.Endpoint.{FitsFrame, SealsFor, SealsForOne, SealsForOthers, numbers, says};
ghost use Rattle.frame_endpoint.specs.Frames.{SealsMessage};

use crate::receivers::{only, other_replicas};
use authenticator::{Ring, SealFault};
use events::{Output, SharedBytes};
use std::alloc::Global;
use terms::{Party, ReplicaId};
use wire::{Body, Message};

/// The output of a message for all other replicas, in one frame. Up to `faults` replicas may be faulty.
pub(crate) fn seal_for_others(
    ring: &mut Ring,
    alloc: Global,
    faults: u8,
    me: ReplicaId,
    message: Message,
) -> Result<Output, SealFault>
    requires faults { faults ≡ ring.old.faults }
    requires some { 1 ≤ faults }
    requires few { faults ≤ 3 }
    requires known { me.0 < 3 * faults + 1 }
    requires said { IsMessage (message_data message) }
    requires unsigned { is_signed (message_data message) ≡ false }
    ensures is_outgoing { (publics : List (List ℕ))
        → IfOk result (SealsForOthers (knows ring.old publics) me.0 (message_data message)) }
    ensures fits { FitsFrame (message_data message) → result ≢ Err SealFault.TooLarge }
    ensures same { ring.new ≡ ring.old }
{
    let receivers = other_replicas(alloc, 3 * faults + 1, me)?;
    seal_for(ring, alloc, me, message, receivers)
}

/// The output of a message of the replica `me`, below 10, for one party, with only the keys of a ring. So a replica can
/// answer clients while its endpoint is busy elsewhere. Which public keys it knows doesn't matter.
///
/// # Errors
///
/// TooLarge if the frame would be longer than it may be, which no message that fits a frame is. Else NoMemory if memory
/// runs out.
pub fn seal_for_one(
    ring: &mut Ring,
    alloc: Global,
    me: ReplicaId,
    message: Message,
    receiver: Party,
) -> Result<Output, SealFault>
    requires said { IsMessage (message_data message) }
    requires unsigned { is_signed (message_data message) ≡ false }
    requires known { me.0 < 10 }
    ensures is_outgoing { (publics : List (List ℕ))
        → IfOk result (SealsForOne (knows ring.old publics) me.0 (message_data message) receiver) }
    ensures fits { FitsFrame (message_data message) → result ≢ Err SealFault.TooLarge }
    ensures same { ring.new ≡ ring.old }
{
    let receivers = only(alloc, receiver)?;
    seal_for(ring, alloc, me, message, receivers)
}

// The output of a message for these parties.
fn seal_for(
    ring: &mut Ring,
    alloc: Global,
    me: ReplicaId,
    message: Message,
    receivers: Vec<Party>,
) -> Result<Output, SealFault>
    requires { IsSealable (says me.0 (message_data message)) (numbers receivers.items) }
    ensures is_outgoing { (publics : List (List ℕ))
        → IfOk result (SealsFor (knows ring.old publics) me.0 (message_data message) receivers.items) }
    ensures fits { FitsFrame (message_data message) → result ≢ Err SealFault.TooLarge }
    ensures same { ring.new ≡ ring.old }
{
    let text = seal_message(ring, alloc, me, message, receivers.as_slice())?;
    let frame = SharedBytes::new(text)?;
    Ok(Output::Send(receivers, frame))
}

// The frame of a message. It has one way out, where the body is dropped.
fn seal_message(
    ring: &mut Ring,
    alloc: Global,
    me: ReplicaId,
    message: Message,
    receivers: &[Party],
) -> Result<Vec<u8>, SealFault>
    requires { IsSealable (says me.0 (message_data message)) (numbers receivers.now) }
    ensures sealed { IfOk result (SealsMessage ring.old me (message_data message) receivers.now) }
    ensures fits { FitsFrame (message_data message) → result ≢ Err SealFault.TooLarge }
    ensures same { ring.new ≡ ring.old }
{
    let body = Body {
        sender: Party::Replica(me),
        message,
    };
    seal_body(ring, alloc, &body, receivers)
}

// The frame of a body.
fn seal_body(
    ring: &mut Ring,
    alloc: Global,
    body: &Body,
    receivers: &[Party],
) -> Result<Vec<u8>, SealFault>
    requires { IsSealable (body_data body.now) (numbers receivers.now) }
    ensures sealed { IfOk result (SealsBody ring.old.keys body.now receivers.now) }
    ensures fits { FitsFrame (message_data body.now.message) → result ≢ Err SealFault.TooLarge }
    ensures same { ring.new ≡ ring.old }
{
    ring.seal(alloc, body, receivers)
}
