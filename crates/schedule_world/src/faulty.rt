//! The keys of faulty parties.

ghost use Rattle.std.specs.Prelude.{◌≡◌, ◌<◌, ◌≤◌, true, length, IfOk};
ghost use Rattle.terms.specs.Parties.{party_number};
ghost use Rattle.authenticator.specs.Results.{AreMacsFor};
ghost use Rattle.authenticator.specs.Keys.{dealt, derived_key, mac_between};
ghost use Rattle.signing.specs.Signatures.{signature_of};
ghost use Rattle.schedule_world.specs.Making.{IsRowOf, KeysAreOf, seed_of};

use arrayvec::ArrayVec;
use authenticator::{Ring, hmac, signing_seed};
use signing::{KeyTree, Signature};
use std::alloc::Global;
use terms::{NoMemory, Party};
use wire::{MAX_RECEIVERS, ReceiverMac};

/// A faulty party that has made a frame, with its row and, once it has signed, the tree of its own signing seed. Making
/// a tree takes some 115,000 blocks of SHA-256.
#[derive(Drop)]
pub(crate) struct FaultyParty {
    seed: [u8; 32],
    party: Party,
    ring: Ring,
    tree: Option<Box<KeyTree>>,
    ghost right: { KeysAreOf seed party ring tree },
}

impl FaultyParty {
    /// The party with its row, before it signs.
    pub(crate) fn new(seed: &[u8; 32], party: Party, ring: Ring) -> FaultyParty
        requires { IsRowOf seed.now party ring }
        ensures seed { result.seed ≡ seed.now }
        ensures party { result.party ≡ party }
    {
        FaultyParty {
            seed: *seed,
            party,
            ring,
            tree: None,
        }
    }

    /// Whether it is this party under this seed.
    pub(crate) fn is(&self, seed: &[u8; 32], party: Party) -> bool
        ensures { result ≡ true
            → (self.now.seed ≡ seed.now) × (party_number self.now.party ≡ party_number party) }
    {
        self.seed == *seed && self.party.number() == party.number()
    }

    /// The MACs of a body for these receivers, each under the key from this party.
    pub(crate) fn macs_for(
        &mut self,
        receivers: &[Party],
        body: &[u8],
    ) -> ArrayVec<ReceiverMac, MAX_RECEIVERS>
        requires { length receivers.now ≤ 10 }
        ensures { AreMacsFor (dealt self.old.seed) (party_number self.old.party) body.now receivers.now result.items }
    {
        let mut macs = ArrayVec::new();
        for receiver in receivers {
            let mac = self.mac_for(*receiver, body);
            macs.push(ReceiverMac {
                receiver: *receiver,
                mac,
            });
        }
        macs
    }

    // The MAC of a body for a receiver, under the key of this party's row. A schedule may name a receiver with which
    // the party shares no key. Nobody opens such a frame, and its MAC is under the key that the seed gives the two.
    fn mac_for(&mut self, receiver: Party, body: &[u8]) -> [u8; 32]
        ensures mac { result
            ≡ mac_between (dealt self.old.seed) (party_number self.old.party) (party_number receiver) body.now }
        ensures seed { self.new.seed ≡ self.old.seed }
        ensures party { self.new.party ≡ self.old.party }
    {
        let (from, to) = (self.party.number(), receiver.number());
        match self.ring.shared_mac(from, to, body) {
            Some(mac) => mac,
            None => hmac(&derive(&self.seed, from, to), body),
        }
    }

    /// A signature with a leaf of this replica's own keys, also one that has signed before.
    pub(crate) fn sign(
        &mut self,
        alloc: Global,
        leaf: u8,
        text: &[u8],
    ) -> Result<Signature, NoMemory>
        requires { leaf < 64 }
        ensures { IfOk result (λ s. s ≡ signature_of (seed_of self.old.seed self.old.party) leaf text.now) }
    {
        if let Some(tree) = &self.tree {
            return Ok(tree.sign_with(alloc, leaf, text)?);
        }
        let tree = Box::new(alloc, KeyTree::new(&signing_seed(&self.seed, self.party)))?;
        let signature = tree.sign_with(alloc, leaf, text)?;
        self.tree = Some(tree);
        Ok(signature)
    }
}

// The key that a seed gives two parties.
fn derive(seed: &[u8; 32], from: u16, to: u16) -> [u8; 32]
    ensures { result ≡ derived_key seed.now from to }
{
    let [from_high, from_low] = from.to_be_bytes();
    let [to_high, to_low] = to.to_be_bytes();
    hmac(seed, &[b'M', from_high, from_low, to_high, to_low])
}
