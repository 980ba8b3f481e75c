//! A signer, which uses each leaf once.

ghost use Rattle.std.specs.Prelude.{◌≡◌, ◌↔◌, ◌+◌, ◌≤◌, IfOk, OnOk, OnErr};
ghost use Rattle.std.specs.Option.{ForSome};
ghost use Rattle.signing.specs.Signatures.{public_key, signature_of, Verifies};

use crate::signature::Signature;
use crate::tree::{KeyTree, LEAVES};
use std::alloc::{AllocError, Global};
use std::marker::Model;
use thiserror::Error;

/// Why nothing was signed.
#[derive(Clone, Copy, Debug, PartialEq, Eq, Error)]
pub enum SignFault {
    /// Each of the 64 leaves has signed once.
    #[error("all 64 keys are spent")]
    KeysSpent,
    /// There was no memory for the signature; no leaf is spent.
    #[error("out of memory")]
    NoMemory,
}

impl From<AllocError> for SignFault {
    ghost use Rattle.std.specs.Prelude.{◌≡◌};
    ghost use Rattle.signing.specs.declared.signer.SignFault.TheVariants.{NoMemory};

    ghost from_gives = { λ _ fault. fault ≡ NoMemory };

    fn from(_failed: AllocError) -> SignFault {
        SignFault::NoMemory
    }
}

/// Signs up to 64 texts by the leaves of a seed, in order. The first call that needs its tree makes it.
#[derive(Drop)]
pub struct Signer {
    seed: [u8; 32],
    used: u8,
    tree: Option<KeyTree>,
}

impl Model for Signer {
    ghost use Rattle.std.specs.Prelude.{◌≡◌, ◌≤◌};
    ghost use Rattle.std.specs.Option.{ForSome};
    ghost use Rattle.signing.specs.Signing.{SigningState};

    ghost Value = { SigningState };

    ghost view = { λ s. record { seed = s.seed; used = s.used } };

    ghost invariant = { λ s. (s.used ≤ 64) × ForSome s.tree (λ tree. tree ≡ s.seed) };
}

impl Signer {
    /// The signer of a seed of 32 bytes, with all leaves unused.
    pub fn from_seed(seed: &[u8; 32]) -> Signer
        ensures { result ≡ record { seed = seed.now; used = 0 } }
    {
        Signer {
            seed: *seed,
            used: 0,
            tree: None,
        }
    }

    /// How many leaves have signed, 0 to 64.
    pub fn used(&self) -> u8
        ensures value { result ≡ self.now.used }
        ensures limit { self.now.used ≤ 64 }
    {
        self.used
    }

    /// The public key, of 32 bytes.
    pub fn public(&mut self) -> [u8; 32]
        ensures key { result ≡ public_key self.old.seed }
        ensures same { self.new ≡ self.old }
    {
        let tree = ready(self.tree.take(), &self.seed);
        let public = tree.public();
        self.tree = Some(tree);
        public
    }

    /// The signature of a text by the next leaf, which is then used. An error leaves the signer unchanged:
    /// [`SignFault::KeysSpent`] comes if all 64 leaves are used, and [`SignFault::NoMemory`] only if they aren't.
    pub fn sign(&mut self, alloc: Global, text: &[u8]) -> Result<Signature, SignFault>
        ensures value { IfOk result (λ s. s ≡ signature_of self.old.seed self.old.used text.now) }
        ensures verifies { IfOk result (λ s. Verifies (public_key self.old.seed) text.now s) }
        ensures once { OnOk result (self.new ≡ record self.old { used = self.old.used + 1 }) }

        ensures spent { (result ≡ Err SignFault.KeysSpent) ↔ (self.old.used ≡ 64) }
        ensures err { OnErr result (self.new ≡ self.old) }
    {
        if self.used == LEAVES {
            return Err(SignFault::KeysSpent);
        }
        let tree = ready(self.tree.take(), &self.seed);
        let signed = tree.sign_with(alloc, self.used, text);
        self.tree = Some(tree);
        let signature = signed?;
        self.used += 1;
        Ok(signature)
    }
}

// The tree of the seed, made if it isn't there.
fn ready(tree: Option<KeyTree>, seed: &[u8; 32]) -> KeyTree
    requires { ForSome tree (λ t. t ≡ seed.now) }
    ensures { result ≡ seed.now }
{
    match tree {
        Some(tree) => tree,
        None => KeyTree::new(seed),
    }
}
