//! Hashes that have taken in whole blocks, one at a time or four at once.

ghost use Rattle.std.specs.Prelude.{◌≡◌, ◌+◌, ◌*◌, ◌/◌, ◌%◌, ◌^◌, ◌≤◌, ◌<◌, ℕ, List, [], ◌++◌, length, take};
ghost use Rattle.sha2.specs.Sha256.{compress, digest_bytes, hash_after, sha256};
ghost use Rattle.hash_lanes.specs.Midstates.{IsAfter, IsDigestAfter};

use crate::tail::padded;
use crate::words::compress;

/// The length of a block, in bytes (FIPS 180-4, section 1).
pub(crate) const BLOCK_LEN: usize = 64;

/// The hash value before the first block (section 5.3.3).
const INITIAL_HASH: [u32; 8] = [
    0x6a09e667, 0xbb67ae85, 0x3c6ef372, 0xa54ff53a, 0x510e527f, 0x9b05688c, 0x1f83d9ab, 0x5be0cd19,
];

/// A hash that has taken in whole blocks. A key of HMAC that is made ready keeps two (RFC 2104, section 4).
#[derive(Drop)]
pub struct Midstate {
    words: [u32; 8],
    // How many bytes it has taken in, modulo 2^64, as the padding counts them.
    taken: u64,
}

impl Midstate {
    /// The hash of no block yet.
    pub fn new() -> Midstate
        ensures { IsAfter result [] }
    {
        Midstate {
            words: INITIAL_HASH,
            taken: 0,
        }
    }

    /// Takes in one more block.
    pub fn take(&mut self, block: &[u8; 64])
        ensures { (m : List ℕ) → IsAfter self.old m → IsAfter self.new (m ++ block.now) }
    {
        compress(&mut self.words, block);
        self.taken = self.taken.wrapping_add(BLOCK_LEN as u64);
    }

    /// The digest of the blocks so far and a text behind them.
    pub fn finish(&self, text: &[u8]) -> [u8; 32]
        ensures { IsDigestAfter self.now text.now result }
    {
        let mut words = self.words;
        let whole = text.len() / BLOCK_LEN;
        'taking: for i in 0..whole {
            let at = BLOCK_LEN * i;
            compress(&mut words, &text[at..at + BLOCK_LEN]);
        }
        let (tail, len) = padded(&text[BLOCK_LEN * whole..], self.bits_with(text));
        take_tail(&mut words, &tail, len);
        digest(&words)
    }

    /// How many bytes it has taken in, modulo 2^64.
    pub(crate) fn taken(&self) -> u64
        ensures { result ≡ self.now.taken }
    {
        self.taken
    }

    /// The hash value.
    pub(crate) fn words(&self) -> &[u32; 8]
        ensures { result.now ≡ self.now.words }
    {
        &self.words
    }

    /// The hash after one more block, which leads to this hash value.
    pub(crate) fn moved_to(&self, words: [u32; 8]) -> Midstate
        ensures words { result.words ≡ words }
        ensures taken { result.taken ≡ (self.now.taken + 64) % 2 ^ 64 }
    {
        Midstate {
            words,
            taken: self.taken.wrapping_add(BLOCK_LEN as u64),
        }
    }

    /// The length in bits of the blocks so far and the text behind them, modulo 2^64.
    pub(crate) fn bits_with(&self, text: &[u8]) -> u64
        ensures { result ≡ (self.now.taken + length text.now) * 8 % 2 ^ 64 }
    {
        self.taken.wrapping_add(text.len() as u64).wrapping_mul(8)
    }
}

// Takes in the one or two blocks of a tail of this length, 64 or 128.
fn take_tail(words: &mut [u32; 8], tail: &[u8; 128], len: usize)
    requires low { 64 ≤ len }
    requires high { len ≤ 128 }
    requires whole { len % 64 ≡ 0 }
    ensures { words.new ≡ hash_after words.old (take len tail.now) (len / 64) }
{
    compress(words, &tail[..BLOCK_LEN]);
    if len > BLOCK_LEN {
        compress(words, &tail[BLOCK_LEN..]);
    }
}

/// The bytes of a hash value, high byte first.
pub(crate) fn digest(words: &[u32; 8]) -> [u8; 32]
    ensures { result ≡ digest_bytes words.now 8 }
{
    let mut bytes = [0; 32];
    'each: for i in 0..8 {
        bytes[4 * i..4 * i + 4].copy_from_slice(&words[i].to_be_bytes());
    }
    bytes
}
