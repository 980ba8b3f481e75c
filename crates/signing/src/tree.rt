//! The tree of hashes over the leaves of a seed.

ghost use Rattle.std.specs.Prelude.{◌≡◌, ◌+◌, ◌-◌, ◌^◌, ◌<◌, ◌≤◌, ℕ, List, ◌++◌, IfOk};
ghost use Rattle.sha2.specs.Sha256.{sha256};
ghost use Rattle.signing.specs.Lamport.{leaf_digest};
ghost use Rattle.signing.specs.Merkle.{sibling};
ghost use Rattle.signing.specs.Signatures.{public_key, signature_of, Verifies};
ghost use Rattle.signing.specs.Signing.{HasNodes, HasLeaves, digest_over};
ghost use Rattle.signing.specs.Results.{AppendsPath};

use crate::secrets::Secrets;
use crate::signature::{SIGNATURE_LEN, Signature};
use sha2::{Digest, Sha256};
use std::alloc::{AllocError, Global};
use std::marker::Model;

/// How many leaves a tree has: a seed signs as many texts.
pub const LEAVES: u8 = 64;

/// The level of the root.
pub(crate) const LEVELS: u8 = 6;

/// The place of the first leaf among the nodes. There are as many places before it as leaves.
const FIRST_LEAF: usize = LEAVES as usize;

/// The nodes over the leaves of a seed. To make them takes some 115,000 blocks of SHA-256, mostly four at once.
#[derive(Drop)]
pub struct KeyTree {
    secrets: Secrets,
    // The root is at 1, and the children of the node at `i` are at `2 * i` and `2 * i + 1`. No node is at 0.
    nodes: [[u8; 32]; 128],
}

impl Model for KeyTree {
    ghost use Rattle.std.specs.Prelude.{ℕ, List};
    ghost use Rattle.signing.specs.Lamport.{leaf_digest};
    ghost use Rattle.signing.specs.Signing.{HasNodes};

    ghost Value = { List ℕ };

    ghost view = { λ t. t.secrets };

    ghost invariant = { λ t. HasNodes (leaf_digest t.secrets) t.nodes };
}

impl KeyTree {
    /// The tree of a seed of 32 bytes.
    pub fn new(seed: &[u8; 32]) -> KeyTree
        ensures { result ≡ seed.now }
    {
        let secrets = Secrets::new(seed);
        let mut nodes = leaf_nodes(&secrets);
        join_pairs(&mut nodes);
        KeyTree { secrets, nodes }
    }

    /// The public key, of 32 bytes.
    pub fn public(&self) -> [u8; 32]
        ensures { result ≡ public_key self.now }
    {
        self.nodes[1]
    }

    /// The signature of a text by one leaf, 0 to 63. A leaf that signs two texts gives away secrets of both values,
    /// so the caller has to use each once, as a [`Signer`](crate::Signer) does. The error is out of memory for the
    /// signature's bytes, and then no secret is given away.
    pub fn sign_with(&self, alloc: Global, leaf: u8, text: &[u8]) -> Result<Signature, AllocError>
        requires { leaf < 64 }
        ensures value { IfOk result (λ s. s ≡ signature_of self.now leaf text.now) }
        ensures verifies { IfOk result (λ s. Verifies (public_key self.now) text.now s) }
    {
        let hash = Sha256::digest(text);
        let mut bytes = Vec::with_capacity(alloc, SIGNATURE_LEN)?;
        bytes.push(leaf)?;
        self.secrets.push_signed(leaf, &hash, &mut bytes)?;
        push_path(&self.nodes, leaf, &mut bytes)?;
        Ok(Signature::from_vec(bytes))
    }
}

// The leaves at their places, and nothing above them yet.
fn leaf_nodes(secrets: &Secrets) -> [[u8; 32]; 128]
    ensures { HasLeaves (leaf_digest secrets.now) result }
{
    let mut nodes = [[0; 32]; 128];
    for group in 0..LEAVES / 4 {
        let first = 4 * group;
        let at = FIRST_LEAF + first as usize;
        nodes[at..at + 4].copy_from_slice(&secrets.leaf_digests(first));
    }
    nodes
}

// Fills in the digests above the leaves, upwards.
fn join_pairs(nodes: &mut [[u8; 32]; 128])
    ensures { (leaves : ℕ → List ℕ) → HasLeaves leaves nodes.old → HasNodes leaves nodes.new }
{
    for i in (1..FIRST_LEAF).rev() {
        nodes[i] = over_children(nodes, i);
    }
}

// The digest over the children of the node at `i`.
fn over_children(nodes: &[[u8; 32]; 128], i: usize) -> [u8; 32]
    requires { i < 64 }
    ensures { result ≡ digest_over nodes.now i }
{
    parent(&nodes[2 * i], &nodes[2 * i + 1])
}

/// The digest over two nodes.
pub(crate) fn parent(left: &[u8], right: &[u8]) -> [u8; 32]
    ensures { result ≡ sha256 (left.now ++ right.now) }
{
    let mut hasher = Sha256::new();
    hasher.update(left);
    hasher.update(right);
    hasher.finalize()
}

// Appends the digests beside a leaf's path, upwards.
fn push_path(nodes: &[[u8; 32]; 128], leaf: u8, bytes: &mut Vec<u8>) -> Result<(), AllocError>
    requires { leaf < 64 }
    ensures { AppendsPath nodes.now leaf bytes.old bytes.new result }
{
    for level in 0..LEVELS {
        let beside = &nodes[node_index(level, sibling_of(leaf >> level))];
        bytes.extend_from_slice(beside)?;
    }
    Ok(())
}

// The index of a level's node at this place.
fn node_index(level: u8, place: u8) -> usize
    requires level { level ≤ 6 }
    requires place { place < 2 ^ (6 - level) }
    ensures value { result ≡ 2 ^ (6 - level) + place }
    ensures range { result < 128 }
{
    (FIRST_LEAF >> level) + place as usize
}

// The place of the other child of the parent.
fn sibling_of(place: u8) -> u8
    requires { place < 64 }
    ensures value { result ≡ sibling place }
{
    if place % 2 == 0 { place + 1 } else { place - 1 }
}
