//! Signatures, and whether they verify.

ghost use Rattle.std.specs.Prelude.{◌≡◌, ◌↔◌, ◌+◌, ◌<◌, ◌≤◌, ℕ, List, IfOk, OnErr, IsTrue, length, map, slice_index};
ghost use Rattle.sha2.specs.Sha256.{sha256};
ghost use Rattle.signing.specs.Fours.{four_from, four_joined};
ghost use Rattle.signing.specs.Signatures.{IsSignature, shown_digest, shown_pair, shown_root, shown_secret, Verifies};
ghost use Rattle.signing.specs.Results.{FindsSignature};
ghost use Rattle.signing.specs.Hashing.{TakesIn};

use crate::hashing::digest_each;
use crate::secrets::{BITS, bit_of};
use crate::tree::{LEAVES, LEVELS, parent};
use authenticator::same;
use sha2::{Digest, Sha256};
use std::alloc::{AllocError, Global};
use std::marker::Model;

/// The length of a signature, in bytes: the leaf's number, two hashes for each bit, and one for each level.
pub const SIGNATURE_LEN: usize = 16_577;

/// Where the path begins in a signature.
const PATH: usize = 16_385;

/// A signature by its form. [`verify`] tells whether it is one of a text under a key.
#[derive(Drop)]
pub struct Signature {
    bytes: Vec<u8>,
}

impl Model for Signature {
    ghost use Rattle.std.specs.Prelude.{ℕ, List};
    ghost use Rattle.signing.specs.Signatures.{IsSignature};

    ghost Value = { List ℕ };

    ghost view = { λ s. s.bytes.items };

    ghost invariant = { λ s. IsSignature s.bytes.items };
}

impl Signature {
    /// The signature of these bytes, in memory of its own, or `None` if they lack the length or a leaf from 0 to 63.
    /// The error is out of memory; it comes only if the bytes are a signature.
    pub fn from_bytes(alloc: Global, bytes: &[u8]) -> Result<Option<Signature>, AllocError>
        ensures found { IfOk result (FindsSignature bytes.now) }
        ensures memory { OnErr result (IsSignature bytes.now) }
    {
        if !is_signature(bytes) {
            return Ok(None);
        }
        let bytes = Vec::from_slice(alloc, bytes)?;
        Ok(Some(Signature { bytes }))
    }

    pub(crate) fn from_vec(bytes: Vec<u8>) -> Signature
        requires { IsSignature bytes.items }
        ensures { result ≡ bytes.items }
    {
        Signature { bytes }
    }

    /// The bytes of this signature.
    pub fn as_slice(&self) -> &[u8]
        ensures value { result.now ≡ self.now }
        ensures formed { IsSignature self.now }
    {
        self.bytes.as_slice()
    }

    /// The bytes of this signature, in the memory that it had.
    pub fn into_bytes(self) -> Vec<u8>
        ensures value { result.items ≡ self }
        ensures formed { IsSignature self }
    {
        self.bytes
    }
}

/// Whether the signature is one of the text under the public key. It takes no memory.
pub fn verify(public: &[u8; 32], text: &[u8], signature: &Signature) -> bool
    ensures { IsTrue result ↔ Verifies public.now text.now signature.now }
{
    verify_bytes(public, text, signature.as_slice())
}

/// Whether the bytes are a signature of the text under the public key. It takes no memory.
pub fn verify_bytes(public: &[u8; 32], text: &[u8], signature: &[u8]) -> bool
    ensures { IsTrue result ↔ Verifies public.now text.now signature.now }
{
    is_signature(signature) && same(&root_shown(signature, text), public)
}

/// Whether the bytes have the length of a signature and a leaf from 0 to 63.
pub(crate) fn is_signature(bytes: &[u8]) -> bool
    ensures { IsTrue result ↔ IsSignature bytes.now }
{
    bytes.len() == SIGNATURE_LEN && bytes[0] < LEAVES
}

// The root that a signature's path leads to.
fn root_shown(signature: &[u8], text: &[u8]) -> [u8; 32]
    requires { length signature.now ≡ 16577 }
    ensures { result ≡ shown_root signature.now text.now }
{
    let leaf = signature[0];
    let mut digest = digest_shown(signature, text);
    for level in 0..LEVELS {
        let at = PATH + 32 * level as usize;
        let beside = &signature[at..at + 32];
        digest = if leaf >> level & 1 == 0 {
            parent(&digest, beside)
        } else {
            parent(beside, &digest)
        };
    }
    digest
}

// The digest of the leaf by which a signature signs the text.
fn digest_shown(signature: &[u8], text: &[u8]) -> [u8; 32]
    requires { length signature.now ≡ 16577 }
    ensures { result ≡ shown_digest signature.now text.now }
{
    let hash = Sha256::digest(text);
    let mut hasher = Sha256::new();
    for group in 0..BITS / 4 {
        add_pairs(&mut hasher, signature, &hash, 4 * group);
    }
    hasher.finalize()
}

// Adds the public hashes of both values of four bits, from this one on, that a signature of this hash shows.
fn add_pairs(hasher: &mut Sha256, signature: &[u8], hash: &[u8; 32], first: u16)
    requires whole { length signature.now ≡ 16577 }
    requires bits { first + 3 < BITS }
    ensures { TakesIn (four_joined (shown_pair signature.now hash.now) first) hasher.old hasher.new }
{
    let own = hashes_of_shown(signature, first);
    for i in 0..4 {
        add_pair(hasher, signature, hash, first + i, &own[i as usize]);
    }
}

// The hashes of the secrets that a signature shows of four bits, from this one on.
fn hashes_of_shown(signature: &[u8], first: u16) -> [[u8; 32]; 4]
    requires whole { length signature.now ≡ 16577 }
    requires bits { first + 3 < BITS }
    ensures { result ≡ map (λ bit. sha256 (shown_secret signature.now bit)) (four_from first) }
{
    digest_each([
        secret_shown(signature, first),
        secret_shown(signature, first + 1),
        secret_shown(signature, first + 2),
        secret_shown(signature, first + 3),
    ])
}

// The secret that a signature shows of a bit.
fn secret_shown(signature: &[u8], bit: u16) -> &[u8]
    requires whole { length signature.now ≡ 16577 }
    requires bit { bit < BITS }
    ensures value { result.now ≡ shown_secret signature.now bit }
    ensures length { length result.now ≡ 32 }
{
    let at = 1 + 64 * bit as usize;
    &signature[at..at + 32]
}

// Adds the public hashes of both values of a bit that a signature of this hash shows. One is the hash of its secret.
fn add_pair(hasher: &mut Sha256, signature: &[u8], hash: &[u8; 32], bit: u16, own: &[u8; 32])
    requires whole { length signature.now ≡ 16577 }
    requires bit { bit < BITS }
    requires own { own.now ≡ sha256 (shown_secret signature.now bit) }
    ensures { TakesIn (shown_pair signature.now hash.now bit) hasher.old hasher.new }
{
    let at = 33 + 64 * bit as usize;
    let other = &signature[at..at + 32];
    if bit_of(hash, bit) == 0 {
        hasher.update(own);
        hasher.update(other);
    } else {
        hasher.update(other);
        hasher.update(own);
    }
}
