//! Frames with a signature.

ghost use Rattle.std.specs.Prelude.{◌≡◌, ◌≢◌, ◌↔◌, ◌+◌, ◌<◌, ◌≤◌, true, IfOk, IfErr, OnOk};
ghost use Rattle.wire_format.specs.Spelling.{IsBody, body_spelling, is_signed, piece};
ghost use Rattle.wire_format.specs.Views.{body_data, message_data};
ghost use Rattle.frame_endpoint.specs.Endpoint.{SignedExceeds, says};
ghost use Rattle.frame_endpoint.specs.Frames.{SignedFits, SignsBody, SignsMessage};

use crate::send_fault::SendFault;
use signing::{LEAVES, Signer};
use std::alloc::Global;
use terms::{Party, ReplicaId};
use tuple_tree::note_bytes;
use wire::{
    Authenticator, Body, Message, SIGNATURE_LEN, WireFault, begin_frame, body_bytes,
    put_authenticator,
};

/// The frame of a message. It has one way out, where the body is dropped.
pub(crate) fn sign_message(
    signer: &mut Signer,
    alloc: Global,
    me: ReplicaId,
    message: Message,
) -> Result<Vec<u8>, SendFault>
    requires said { IsBody (says me.0 (message_data message)) }
    requires signed { is_signed (message_data message) ≡ true }
    ensures spells { IfOk result (SignsMessage signer.old.seed signer.old.used me (message_data message)) }
    ensures used { OnOk result (signer.new ≡ record signer.old { used = signer.old.used + 1 }) }
    ensures seed { signer.new.seed ≡ signer.old.seed }
    ensures kept { IfErr result (λ fault. fault ≢ SendFault.NoMemory → signer.new ≡ signer.old) }
    ensures one { signer.new.used ≤ signer.old.used + 1 }
    ensures spent { (result ≡ Err SendFault.KeysSpent) ↔ (signer.old.used ≡ 64) }
    ensures large { (result ≡ Err SendFault.TooLarge)
        ↔ ((signer.old.used < 64) × SignedExceeds (says me.0 (message_data message))) }
{
    let body = Body {
        sender: Party::Replica(me),
        message,
    };
    sign_body(signer, alloc, &body)
}

// The frame of a body. It is begun before it is signed, so one that is too long spends no key. If no key is left, it
// isn't begun.
fn sign_body(signer: &mut Signer, alloc: Global, body: &Body) -> Result<Vec<u8>, SendFault>
    requires said { IsBody (body_data body.now) }
    requires signed { is_signed (message_data body.now.message) ≡ true }
    ensures spells { IfOk result (SignsBody signer.old.seed signer.old.used body.now) }
    ensures used { OnOk result (signer.new ≡ record signer.old { used = signer.old.used + 1 }) }
    ensures seed { signer.new.seed ≡ signer.old.seed }
    ensures kept { IfErr result (λ fault. fault ≢ SendFault.NoMemory → signer.new ≡ signer.old) }
    ensures one { signer.new.used ≤ signer.old.used + 1 }
    ensures spent { (result ≡ Err SendFault.KeysSpent) ↔ (signer.old.used ≡ 64) }
    ensures large { (result ≡ Err SendFault.TooLarge)
        ↔ ((signer.old.used < 64) × SignedExceeds (body_data body.now)) }
{
    if signer.used() == LEAVES {
        return Err(SendFault::KeysSpent);
    }
    let mut frame = begin_signed(alloc, body)?;
    let signature = signer.sign(alloc, body_bytes(&frame))?;
    put_authenticator(
        &mut frame,
        &Authenticator::Signature(signature.into_bytes()),
    )?;
    note_bytes(&frame);
    Ok(frame)
}

// The length and the bytes of a body, with room for a signature after them.
fn begin_signed(alloc: Global, body: &Body) -> Result<Vec<u8>, SendFault>
    requires { IsBody (body_data body.now) }
    ensures ok { IfOk result (λ frame. frame.items ≡ piece (body_spelling (body_data body.now))) }
    ensures short { OnOk result (SignedFits (body_data body.now)) }
    ensures large { (result ≡ Err SendFault.TooLarge) ↔ SignedExceeds (body_data body.now) }
    ensures unspent { result ≢ Err SendFault.KeysSpent }
{
    match begin_frame(alloc, body, 1 + SIGNATURE_LEN) {
        Ok(frame) => Ok(frame),
        Err(WireFault::TooLarge) => Err(SendFault::TooLarge),
        Err(WireFault::NoMemory) => Err(SendFault::NoMemory),
        Err(WireFault::Malformed) => unreachable!(),
    }
}
