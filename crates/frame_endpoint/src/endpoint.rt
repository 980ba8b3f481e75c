//! The endpoint of a replica.

ghost use Rattle.std.specs.Prelude.{◌≡◌, ◌≢◌, ◌↔◌, ◌+◌, ◌*◌, ◌<◌, ◌≤◌, true, false, Some, IfOk, IfErr, IfSome, IsNone, OnOk, slice_get};
ghost use Rattle.wire.specs.Marks.{has_type_of_requests};
ghost use Rattle.wire_format.specs.Spelling.{IsBatch, IsMessage, is_signed};
ghost use Rattle.wire_format.specs.Views.{message_data};
ghost use Rattle.authenticator.specs.declared.sealed.SealFault.TheVariants as SealFault;
ghost use Rattle.signing.specs.AuthenticBody.{authentic};
ghost use Rattle.signing.specs.Publics.{knows};
ghost use Rattle.signing.specs.Requests.{AuthenticatesRequest};
ghost use Rattle.signing.specs.Signatures.{public_key};
ghost use Rattle.protocol.specs.System.Frames.{leaf_of};
ghost use Rattle.frame_endpoint.specs.Endpoint.{FitsFrame, AuthenticatesBody, IsTooLongToSign, SendsFrameToOthers, SendsMessageToOne, SendsMessageToOthers, SendsToOthers, SignsFrame, TellsGenuine};

use crate::receivers::other_replicas;
use crate::receiving::{are_all_authentic, authenticate_body};
use crate::sealing::{seal_for_one, seal_for_others};
use crate::send_fault::SendFault;
use crate::signing_frames::sign_message;
use authenticator::{Ring, SealFault};
use events::{Output, SharedBytes};
use signing::{AuthenticRequest, PublicKeys, Signer, authenticate_request};
use std::alloc::Global;
use std::marker::Model;
use terms::{NoMemory, Party, ReplicaId};
use wire::{Batch, Body, Message, split_batch};

/// The part of a replica that authenticates received frames, and makes those that it sends.
#[derive(Drop)]
pub struct Endpoint {
    me: ReplicaId,
    faults: u8,
    ring: Ring,
    publics: PublicKeys,
    signer: Signer,
}

impl Model for Endpoint {
    ghost use Rattle.frame_endpoint.specs.Endpoint.{EndpointState, ReplicaIsOfMembers};
    ghost use Rattle.signing.specs.Publics.{knows};

    ghost Value = { EndpointState };

    ghost view = { λ e. record { membership = knows e.ring e.publics; me = e.me.0; used = e.signer.used } };

    ghost invariant = { λ e. ReplicaIsOfMembers (knows e.ring e.publics) e.faults e.me.0 e.signer.seed };
}

impl Endpoint {
    /// The endpoint of the replica `me`. Up to `faults` replicas, 1 to 3, may be faulty. The ring has the replica's
    /// keys, and the signer is that of its public key.
    pub fn new(
        me: ReplicaId,
        faults: u8,
        ring: Ring,
        publics: PublicKeys,
        signer: Signer,
    ) -> Endpoint
        requires faults { faults ≡ ring.faults }
        requires some { 1 ≤ faults }
        requires few { faults ≤ 3 }
        requires known { me.0 < 3 * faults + 1 }
        requires signer { slice_get publics me.0 ≡ Some (public_key signer.seed) }
        ensures { result ≡ record { membership = knows ring publics; me = me.0; used = signer.used } }
    {
        Endpoint {
            me,
            faults,
            ring,
            publics,
            signer,
        }
    }

    /// The number of this replica.
    pub fn me(&self) -> ReplicaId
        ensures value { result.0 ≡ self.now.me }
    {
        self.me
    }

    /// The body of a frame of another party, if the bytes are one that is authentic to the replica. That party takes
    /// part and may send such a message. The frame has the right MAC for this replica, or its sender's signature if it
    /// has to be signed. NoMemory if memory runs out.
    pub fn authenticate(&mut self, alloc: Global, bytes: &[u8]) -> Result<Option<Body>, NoMemory>
        ensures authentic { IfOk result (AuthenticatesBody self.old bytes.now) }
        ensures same { self.new ≡ self.old }
    {
        authenticate_body(&mut self.ring, &self.publics, alloc, self.me, bytes)
    }

    /// The request that the replica receives from bytes with the type of requests. Nothing is decoded, and no memory is
    /// taken but for the keys and requests that the endpoint keeps.
    pub fn authenticate_request<'b>(&mut self, bytes: &'b [u8]) -> Option<AuthenticRequest<'b>>
        requires { has_type_of_requests bytes.now ≡ true }
        ensures some { IfSome result (AuthenticatesRequest self.old.membership self.old.me bytes.now) }
        ensures none { IsNone result → authentic self.old.membership self.old.me bytes.now ≡ None }
        ensures same { self.new ≡ self.old }
    {
        authenticate_request(&mut self.ring, self.me, bytes)
    }

    /// Whether each request of the batch is authentic to the replica. Nothing is decoded, and no memory is taken
    /// but for the keys and requests that the endpoint keeps.
    pub fn are_genuine(&mut self, batch: &Batch) -> bool
        requires { IsBatch 1 batch.now.text.items }
        ensures genuine { TellsGenuine self.old batch.now result }
        ensures same { self.new ≡ self.old }
    {
        let frames = split_batch(&batch.text);
        are_all_authentic(&mut self.ring, &self.publics, self.me, frames.as_slice())
    }

    /// The output of a message for one party, as a reply for its client.
    ///
    /// # Errors
    ///
    /// TooLarge if the frame would be longer than it may be, which no message that fits a frame is. Else NoMemory if
    /// memory runs out.
    pub fn send_to(
        &mut self,
        alloc: Global,
        message: Message,
        receiver: Party,
    ) -> Result<Output, SealFault>
        requires said { IsMessage (message_data message) }
        requires unsigned { is_signed (message_data message) ≡ false }
        ensures is_outgoing { IfOk result (SendsMessageToOne self.old (message_data message) receiver) }
        ensures fits { FitsFrame (message_data message) → result ≢ Err SealFault.TooLarge }
        ensures same { self.new ≡ self.old }
    {
        seal_for_one(&mut self.ring, alloc, self.me, message, receiver)
    }

    /// The output of a message for all other replicas, in one frame.
    ///
    /// # Errors
    ///
    /// TooLarge if the frame would be longer than it may be, which no message that fits a frame is. Else NoMemory if
    /// memory runs out.
    pub fn send_to_others(&mut self, alloc: Global, message: Message) -> Result<Output, SealFault>
        requires said { IsMessage (message_data message) }
        requires unsigned { is_signed (message_data message) ≡ false }
        ensures is_outgoing { IfOk result (SendsMessageToOthers self.old (message_data message)) }
        ensures fits { FitsFrame (message_data message) → result ≢ Err SealFault.TooLarge }
        ensures same { self.new ≡ self.old }
    {
        seal_for_others(&mut self.ring, alloc, self.faults, self.me, message)
    }

    /// The frame of a message, signed by the next of 64 keys, whose number is the signature's first byte. It has at
    /// most 262,144 bytes for a view change, and 4,194,304 for a new view. It may be sent any number of times.
    ///
    /// The first call makes the tree of the keys, in some 115,000 blocks of SHA-256, and keeps it. So nobody who shares
    /// the public keys derives this replica's.
    ///
    /// # Errors
    ///
    /// KeysSpent if all keys are spent, and else TooLarge if the frame would be longer than it may be: neither spends
    /// one. NoMemory if memory runs out: that spends at most one.
    pub fn sign(&mut self, alloc: Global, message: Message) -> Result<Vec<u8>, SendFault>
        requires said { IsMessage (message_data message) }
        requires signed { is_signed (message_data message) ≡ true }
        ensures frame { IfOk result (SignsFrame self.old (message_data message)) }
        ensures leaf { IfOk result (λ frame. leaf_of frame.items ≡ Some self.old.used) }
        ensures used { OnOk result (self.new ≡ record self.old { used = self.old.used + 1 }) }
        ensures membership { self.new.membership ≡ self.old.membership }
        ensures me { self.new.me ≡ self.old.me }
        ensures kept { IfErr result (λ fault. fault ≢ SendFault.NoMemory → self.new ≡ self.old) }
        ensures one { self.new.used ≤ self.old.used + 1 }
        ensures spent { (result ≡ Err SendFault.KeysSpent) ↔ (self.old.used ≡ 64) }
        ensures large { (result ≡ Err SendFault.TooLarge) ↔ IsTooLongToSign self.old (message_data message) }
    {
        let public = self.signer.public();
        self.publics.keep(self.me, public);
        sign_message(&mut self.signer, alloc, self.me, message)
    }

    /// The output of a signed frame, for all other replicas. NoMemory if memory runs out.
    pub fn send_frame_to_others(&self, alloc: Global, frame: &[u8]) -> Result<Output, NoMemory>
        ensures sends { IfOk result (SendsToOthers self.now frame.now) }
        ensures sends_frame { IfOk result (SendsFrameToOthers self.now frame.now) }
    {
        let receivers = other_replicas(alloc, 3 * self.faults + 1, self.me)?;
        let copy = Vec::from_slice(alloc, frame)?;
        let frame = SharedBytes::new(copy)?;
        Ok(Output::Send(receivers, frame))
    }
}
