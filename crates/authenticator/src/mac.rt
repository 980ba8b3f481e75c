//! Message authentication codes: HMAC (RFC 2104) with the hash function SHA-256 (FIPS 180-4).

ghost use Rattle.std.specs.Prelude.{◌≡◌, ◌↔◌, ◌-◌, ◌≤◌, ℕ, List, ◌++◌, IsTrue, length, replicate};
ghost use Rattle.hash_lanes.specs.Midstates.{AreShort, IsAfter};
ghost use Rattle.authenticator.specs.Mac.{block_key, hmac_of, xor_each};
ghost use Rattle.authenticator.specs.Made.{AreMacsOf, AreMacsUnder, IsMadeOf};

use hash_lanes::{Midstate, finish_each, finish_four};
use sha2::{Digest, Sha256};

/// The length of a block of SHA-256, in bytes.
const BLOCK_LEN: usize = 64;

/// The byte that each byte of the inner hash's key is mixed with (RFC 2104, section 2).
const INNER_PAD: u8 = 0x36;

/// The byte that each byte of the outer hash's key is mixed with (RFC 2104, section 2).
const OUTER_PAD: u8 = 0x5c;

/// A key made ready for many texts: a code takes two blocks of SHA-256 and those of the text, in place of four and
/// those of the text (RFC 2104, section 4). It keeps the two hashes that have taken in the key's block, mixed with the
/// inner pad and with the outer one.
#[derive(Drop)]
pub struct Key {
    inner: Midstate,
    outer: Midstate,
}

impl Key {
    /// The key made of these bytes, of any length.
    pub fn new(key: &[u8]) -> Key
        ensures { IsMadeOf result key.now }
    {
        let block = block_of(key);
        Key {
            inner: after_mixed(&block, INNER_PAD),
            outer: after_mixed(&block, OUTER_PAD),
        }
    }

    /// The authentication code of a text under this key.
    pub fn mac(&self, text: &[u8]) -> [u8; 32]
        ensures { (key : List ℕ) → IsMadeOf self.now key → result ≡ hmac_of key text.now }
    {
        self.outer.finish(&self.inner.finish(text))
    }

    /// The codes under this key of four texts, each of fewer than 56 bytes. Their hashes are computed together.
    pub fn mac_each(&self, texts: [&[u8]; 4]) -> [[u8; 32]; 4]
        requires { AreShort texts }
        ensures { (key : List ℕ) → IsMadeOf self.now key → AreMacsOf key texts.entry result }
    {
        let [a, b, c, d] = finish_each([&self.inner, &self.inner, &self.inner, &self.inner], texts);
        finish_each(
            [&self.outer, &self.outer, &self.outer, &self.outer],
            [&a, &b, &c, &d],
        )
    }
}

/// The codes of one text under four keys. Their hashes are computed together.
pub(crate) fn mac_four(keys: [&Key; 4], text: &[u8]) -> [[u8; 32]; 4]
    ensures { AreMacsUnder keys.entry text.now result }
{
    let [p, q, r, s] = keys;
    let [a, b, c, d] = finish_four([&p.inner, &q.inner, &r.inner, &s.inner], text);
    finish_each([&p.outer, &q.outer, &r.outer, &s.outer], [&a, &b, &c, &d])
}

/// The authentication code of a text under a key of any length (RFC 2104, section 2). It takes no memory.
pub fn hmac(key: &[u8], text: &[u8]) -> [u8; 32]
    ensures { result ≡ hmac_of key.now text.now }
{
    Key::new(key).mac(text)
}

/// Whether two codes are equal. Each call takes the same steps, wherever the codes differ.
pub fn same(a: &[u8; 32], b: &[u8; 32]) -> bool
    ensures { IsTrue result ↔ (a.now ≡ b.now) }
{
    let mut difference = 0;
    for i in 0..32 {
        difference |= a[i] ^ b[i];
    }
    difference == 0
}

fn block_of(key: &[u8]) -> [u8; 64]
    ensures { result ≡ block_key key.now }
{
    if key.len() > BLOCK_LEN {
        padded(&Sha256::digest(key))
    } else {
        padded(key)
    }
}

fn padded(key: &[u8]) -> [u8; 64]
    requires { length key.now ≤ 64 }
    ensures { result ≡ key.now ++ replicate (64 - length key.now) 0 }
{
    let mut block = [0; 64];
    block[..key.len()].copy_from_slice(key);
    block
}

// The hash that has taken in the block mixed with the pad.
fn after_mixed(block: &[u8; 64], pad: u8) -> Midstate
    ensures { IsAfter result (xor_each pad block.now) }
{
    let mut mixed = *block;
    for byte in mixed.iter_mut() {
        *byte ^= pad;
    }
    let mut state = Midstate::new();
    state.take(&mixed);
    state
}
