//! The one-time keys of a seed, of which four are made at once.

ghost use Rattle.std.specs.Prelude.{◌≡◌, ◌+◌, ◌<◌, ◌≤◌, [], ◌∷◌, ◌++◌, map};
ghost use Rattle.std.specs.Int.{w16, to_be_bytes};
ghost use Rattle.signing.specs.Fours.{TakeInBit, four_from, four_joined, leaf_place, other_place, own_place, public_hash_at, secret_at};
ghost use Rattle.signing.specs.Lamport.{bit_of, leaf_digest};
ghost use Rattle.signing.specs.Signatures.{signed_bit, signed_bits};
ghost use Rattle.wire_format.specs.Appends.{Appends};

use crate::hashing::{block_of_pair, digest_each};
use authenticator::Key;
use hash_lanes::{Midstate, finish_each, take_each};
use std::alloc::AllocError;
use std::marker::Model;

/// The number of bits of a hash.
pub(crate) const BITS: u16 = 256;

/// The place of a secret: a leaf, a bit, 0 to 255, and a value of the bit, 0 or 1.
#[derive(Clone, Copy, Drop)]
pub(crate) struct Place {
    leaf: u8,
    bit: u16,
    value: u8,
}

impl Place {
    // The place of the value that a hash has at a bit.
    fn own(leaf: u8, hash: &[u8; 32], bit: u16) -> Place
        requires { bit < BITS }
        ensures { result ≡ own_place leaf hash.now bit }
    {
        Place {
            leaf,
            bit,
            value: bit_of(hash, bit),
        }
    }

    // The place of the value that a hash doesn't have at a bit.
    fn other(leaf: u8, hash: &[u8; 32], bit: u16) -> Place
        requires { bit < BITS }
        ensures { result ≡ other_place leaf hash.now bit }
    {
        Place {
            leaf,
            bit,
            value: 1 - bit_of(hash, bit),
        }
    }

    // The places of a bit's value under four leaves, from this one on.
    fn of_leaves(first: u8, bit: u16, value: u8) -> [Place; 4]
        requires { first + 3 < 256 }
        ensures { result ≡ map (leaf_place bit value) (four_from first) }
    {
        let place = |leaf: u8| Place { leaf, bit, value };
        [
            place(first),
            place(first + 1),
            place(first + 2),
            place(first + 3),
        ]
    }

    // The text whose authentication code is the secret.
    fn text(self) -> [u8; 5]
        ensures { result ≡ to_be_bytes w16 self.leaf ++ to_be_bytes w16 self.bit ++ self.value ∷ [] }
    {
        let [leaf_high, leaf_low] = u16::from(self.leaf).to_be_bytes();
        let [bit_high, bit_low] = self.bit.to_be_bytes();
        [leaf_high, leaf_low, bit_high, bit_low, self.value]
    }
}

/// The secrets of a seed, each made when it is asked for.
#[derive(Drop)]
pub(crate) struct Secrets {
    seed: [u8; 32],
    key: Key,
}

impl Model for Secrets {
    ghost use Rattle.std.specs.Prelude.{ℕ, List};
    ghost use Rattle.authenticator.specs.Made.{IsMadeOf};

    ghost Value = { List ℕ };

    ghost view = { λ s. s.seed };

    ghost invariant = { λ s. IsMadeOf s.key s.seed };
}

impl Secrets {
    pub(crate) fn new(seed: &[u8; 32]) -> Secrets
        ensures { result ≡ seed.now }
    {
        Secrets {
            seed: *seed,
            key: Key::new(seed),
        }
    }

    // The secrets at four places.
    fn secrets(&self, places: [Place; 4]) -> [[u8; 32]; 4]
        ensures { result ≡ map (secret_at self.now) places }
    {
        let [a, b, c, d] = places;
        self.key
            .mac_each([&a.text(), &b.text(), &c.text(), &d.text()])
    }

    // The public halves of such secrets: their hashes.
    fn public_hashes(&self, places: [Place; 4]) -> [[u8; 32]; 4]
        ensures { result ≡ map (public_hash_at self.now) places }
    {
        let [a, b, c, d] = self.secrets(places);
        digest_each([&a, &b, &c, &d])
    }

    /// The hashes of all public hashes of four leaves, from this one on.
    pub(crate) fn leaf_digests(&self, first: u8) -> [[u8; 32]; 4]
        requires { first + 3 < 256 }
        ensures { result ≡ map (leaf_digest self.now) (four_from first) }
    {
        let mut states = [
            Midstate::new(),
            Midstate::new(),
            Midstate::new(),
            Midstate::new(),
        ];
        for bit in 0..BITS {
            states = self.take_in_bit(states, first, bit);
        }
        let [a, b, c, d] = &states;
        let end: &[u8] = &[];
        finish_each([a, b, c, d], [end, end, end, end])
    }

    // The hashes of four leaves, from this one on, after the public hashes of one more bit.
    fn take_in_bit(&self, states: [Midstate; 4], first: u8, bit: u16) -> [Midstate; 4]
        requires { first + 3 < 256 }
        ensures { TakeInBit self.now first bit states result }
    {
        let zeros = self.public_hashes(Place::of_leaves(first, bit, 0));
        let ones = self.public_hashes(Place::of_leaves(first, bit, 1));
        take_each(
            states,
            [
                &block_of_pair(&zeros[0], &ones[0]),
                &block_of_pair(&zeros[1], &ones[1]),
                &block_of_pair(&zeros[2], &ones[2]),
                &block_of_pair(&zeros[3], &ones[3]),
            ],
        )
    }

    /// Appends, for each bit of a hash, the secret of its value and the public hash of the other value.
    pub(crate) fn push_signed(
        &self,
        leaf: u8,
        hash: &[u8; 32],
        bytes: &mut Vec<u8>,
    ) -> Result<(), AllocError>
        ensures { Appends (signed_bits self.now leaf hash.now) bytes.old bytes.new result }
    {
        for group in 0..BITS / 4 {
            self.push_four(leaf, hash, 4 * group, bytes)?;
        }
        Ok(())
    }

    // Appends the same of four bits, from this one on.
    fn push_four(
        &self,
        leaf: u8,
        hash: &[u8; 32],
        first: u16,
        bytes: &mut Vec<u8>,
    ) -> Result<(), AllocError>
        requires { first + 3 < BITS }
        ensures { Appends (four_joined (signed_bit self.now leaf hash.now) first) bytes.old bytes.new result }
    {
        let secrets = self.secrets([
            Place::own(leaf, hash, first),
            Place::own(leaf, hash, first + 1),
            Place::own(leaf, hash, first + 2),
            Place::own(leaf, hash, first + 3),
        ]);
        let hashes = self.public_hashes([
            Place::other(leaf, hash, first),
            Place::other(leaf, hash, first + 1),
            Place::other(leaf, hash, first + 2),
            Place::other(leaf, hash, first + 3),
        ]);
        for i in 0..4 {
            bytes.extend_from_slice(&secrets[i])?;
            bytes.extend_from_slice(&hashes[i])?;
        }
        Ok(())
    }
}

/// A bit of a hash. Bit 0 is the highest of the first byte.
pub(crate) fn bit_of(hash: &[u8; 32], bit: u16) -> u8
    requires { bit < BITS }
    ensures value { result ≡ bit_of hash.now bit }
    ensures range { result ≤ 1 }
{
    hash[bit as usize / 8] >> (7 - bit % 8) & 1
}
