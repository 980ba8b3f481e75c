//! The public keys that a seed gives.

ghost use Rattle.std.specs.Prelude.{◌≡◌, ◌≤◌, IfSome, slice_get};
ghost use Rattle.authenticator.specs.Keys.{signing_seed};
ghost use Rattle.signing.specs.Publics.{derived_publics};
ghost use Rattle.signing.specs.Signatures.{public_key};
ghost use Rattle.terms.specs.Parties.{party_number};

use crate::tree::KeyTree;
use authenticator::signing_seed;
use std::array;
use std::sync::OnceLock;
use terms::{Party, ReplicaId};

/// The most replicas of a configuration.
const MAX_REPLICAS: usize = 10;

// A public key with its origin. Contracts know of a locked value only what its type promises.
#[derive(Clone, Copy, Drop)]
struct Derived {
    seed: [u8; 32],
    signer: u8,
    key: [u8; 32],
    ghost right: { key ≡ public_key (signing_seed seed signer) },
}

impl Derived {
    // The key, if it is this replica's under this seed.
    fn key_of(&self, seed: &[u8; 32], signer: u8) -> Option<[u8; 32]>
        ensures { IfSome result (λ key. key ≡ public_key (signing_seed seed.now signer)) }
    {
        if self.seed == *seed && self.signer == signer {
            Some(self.key)
        } else {
            None
        }
    }
}

/// The public keys that a seed gives. Each is derived when it first verifies a text.
#[derive(Drop)]
pub(crate) struct Dealt {
    seed: [u8; 32],
    faults: u8,
    kept: [OnceLock<Derived>; MAX_REPLICAS],
    ghost few: { faults ≤ 3 },
}

impl Dealt {
    pub(crate) fn new(seed: &[u8; 32], faults: u8) -> Dealt
        requires { faults ≤ 3 }
        ensures { derived_publics result.seed result.faults ≡ derived_publics seed.now faults }
    {
        Dealt {
            seed: *seed,
            faults,
            kept: array::from_fn(|_| OnceLock::new()),
        }
    }

    /// The public key of a replica. Nobody else has one.
    pub(crate) fn public(&self, signer: Party) -> Option<[u8; 32]>
        ensures { result ≡ slice_get (derived_publics self.now.seed self.now.faults) (party_number signer) }
    {
        match signer {
            Party::Client(_) => None,
            Party::Replica(replica) => {
                if replica.0 <= 3 * self.faults {
                    Some(self.key(replica))
                } else {
                    None
                }
            },
        }
    }

    fn key(&self, signer: ReplicaId) -> [u8; 32]
        ensures { result ≡ public_key (signing_seed self.now.seed signer.0) }
    {
        match self.kept_key(signer) {
            Some(key) => key,
            None => self.derive(signer),
        }
    }

    fn kept_key(&self, signer: ReplicaId) -> Option<[u8; 32]>
        ensures { IfSome result (λ key. key ≡ public_key (signing_seed self.now.seed signer.0)) }
    {
        let place = self.kept.get(usize::from(signer.0))?;
        place.get()?.key_of(&self.seed, signer.0)
    }

    // Derives a key and keeps it.
    fn derive(&self, signer: ReplicaId) -> [u8; 32]
        ensures { result ≡ public_key (signing_seed self.now.seed signer.0) }
    {
        let key = KeyTree::new(&signing_seed(&self.seed, Party::Replica(signer))).public();
        self.keep(signer, key);
        key
    }

    /// Keeps the public key of a replica, which its signer knows.
    pub(crate) fn keep(&self, signer: ReplicaId, key: [u8; 32])
        requires { key ≡ public_key (signing_seed self.now.seed signer.0) }
    {
        if let Some(place) = self.kept.get(usize::from(signer.0)) {
            let _ = place.try_set(Derived {
                seed: self.seed,
                signer: signer.0,
                key,
            });
        }
    }
}
