//! The public keys of a configuration's replicas.

ghost use Rattle.std.specs.Prelude.{◌≡◌, ◌↔◌, ◌≤◌, IsTrue, IfOk, Some, slice_get};
ghost use Rattle.signing.specs.AuthenticBody.{has_signature};
ghost use Rattle.signing.specs.Publics.{derived_publics};
ghost use Rattle.terms.specs.Parties.{party_number};
ghost use Rattle.wire_format.specs.Spelling.{SpellsFrame};
ghost use Rattle.wire_format.specs.Views.{frame_data};
ghost use Rattle.signing.specs.Results.{IsSignedBy};

use crate::dealt::Dealt;
use crate::signature::{is_signature, verify_bytes};
use std::alloc::Global;
use std::marker::Model;
use std::sync::Arc;
use terms::{NoMemory, Party, ReplicaId};
use wire::{Authenticator, Frame, body_bytes};

// Where public keys come from.
#[derive(Drop)]
enum Origin {
    Dealt(Arc<Dealt>),
    Known(Arc<Vec<[u8; 32]>>),
}

/// The public keys of the replicas of one configuration, for all who share them, in any threads. They are known; or a
/// seed gives them. Then each is derived when it first verifies a text, which takes as long as a tree of keys, unless
/// its signer handed it in before. If two threads first need it at once, each derives it.
#[derive(Drop)]
pub struct PublicKeys {
    origin: Origin,
}

impl Model for PublicKeys {
    ghost use Rattle.std.specs.Prelude.{ℕ, List};
    ghost use Rattle.signing.specs.PublicsView.{publics_of};

    ghost Value = { List (List ℕ) };

    ghost view = { λ k. publics_of k.origin };
}

impl PublicKeys {
    /// The public keys that a seed gives the `3 * faults + 1` replicas, of which `faults`, at most 3, may be faulty. It
    /// derives nothing yet, and later calls take no memory. The seed lies in one place, whoever shares the keys.
    pub fn new(alloc: Global, seed: &[u8; 32], faults: u8) -> Result<PublicKeys, NoMemory>
        requires { faults ≤ 3 }
        ensures { IfOk result (λ keys. keys ≡ derived_publics seed.now faults) }
    {
        Ok(PublicKeys {
            origin: Origin::Dealt(Arc::new(alloc, Dealt::new(seed, faults))?),
        })
    }

    /// These public keys, that of replica 0 first.
    pub fn of_replicas(alloc: Global, keys: Vec<[u8; 32]>) -> Result<PublicKeys, NoMemory>
        ensures { IfOk result (λ publics. publics ≡ keys.items) }
    {
        Ok(PublicKeys {
            origin: Origin::Known(Arc::new(alloc, keys)?),
        })
    }

    /// The same keys for one more owner: a key that one owner derives is there for all.
    pub fn share(&self) -> Result<PublicKeys, NoMemory>
        ensures { IfOk result (λ keys. keys ≡ self.now) }
    {
        let origin = match &self.origin {
            Origin::Dealt(dealt) => Origin::Dealt(Arc::try_clone(dealt)?),
            Origin::Known(keys) => Origin::Known(Arc::try_clone(keys)?),
        };
        Ok(PublicKeys { origin })
    }

    /// The public key of a replica. Nobody else has one.
    pub fn public(&self, signer: Party) -> Option<[u8; 32]>
        ensures key { result ≡ slice_get self.now (party_number signer) }
    {
        match &self.origin {
            Origin::Dealt(dealt) => dealt.public(signer),
            Origin::Known(keys) => keys.get(usize::from(signer.number())).copied(),
        }
    }

    /// Whether the bytes are a signature of the text by a replica. For bytes of another form no key is derived.
    pub fn verify(&self, signer: Party, text: &[u8], signature: &[u8]) -> bool
        ensures verified { IsTrue result ↔ IsSignedBy self.now signer text.now signature.now }
    {
        if !is_signature(signature) {
            return false;
        }
        match self.public(signer) {
            Some(public) => verify_bytes(&public, text, signature),
            None => false,
        }
    }

    /// Whether the frame has a signature of its body by its sender. The bytes spell the frame.
    pub fn has_signature(&self, frame: &Frame, bytes: &[u8]) -> bool
        requires { SpellsFrame bytes.now (frame_data frame.now) }
        ensures signed { result ≡ has_signature self.now (frame_data frame.now) }
    {
        match &frame.authenticator {
            Authenticator::Macs(_) => false,
            Authenticator::Signature(signature) => {
                self.verify(frame.body.sender, body_bytes(bytes), signature)
            },
        }
    }

    /// Keeps the public key of a replica, which its signer knows, for all owners. Nothing is kept if these are known.
    pub fn keep(&self, signer: ReplicaId, key: [u8; 32])
        requires { slice_get self.now signer.0 ≡ Some key }
    {
        if let Origin::Dealt(dealt) = &self.origin {
            dealt.keep(signer, key);
        }
    }
}
