//! Hashes of four texts at once.

ghost use Rattle.std.specs.Prelude.{◌≡◌, ◌++◌, map};
ghost use Rattle.sha2.specs.Sha256.{sha256};
ghost use Rattle.hash_lanes.specs.Midstates.{AreShort};

use hash_lanes::{Midstate, finish_each};

/// The digests of four texts, each of fewer than 56 bytes. They are computed together.
pub(crate) fn digest_each(texts: [&[u8]; 4]) -> [[u8; 32]; 4]
    requires { AreShort texts }
    ensures { result ≡ map (λ text. sha256 text.now) texts.entry }
{
    let start = Midstate::new();
    finish_each([&start, &start, &start, &start], texts)
}

/// Two digests, one after the other: a block.
pub(crate) fn block_of_pair(first: &[u8; 32], second: &[u8; 32]) -> [u8; 64]
    ensures { result ≡ first.now ++ second.now }
{
    let mut block = [0; 64];
    block[..32].copy_from_slice(first);
    block[32..].copy_from_slice(second);
    block
}
