//! Signatures, whose bytes come from a program of its own: Python's `hmac.new(seed, .., hashlib.sha256)` for each
//! secret, `hashlib.sha256` for each hash, and lists for the levels of the tree.

use crate::codes::is_code;
use authenticator::signing_seed;
use hex::FromHex;
use sha2::{Digest, Sha256};
use signing::{
    KeyTree, LEAVES, PublicKeys, SIGNATURE_LEN, SignFault, Signature, Signer, verify, verify_bytes,
};
use std::alloc::{AllocError, Global};
use std::test::Fail;
use std::thread::join;
use terms::{ClientId, Party, ReplicaId};
use test_bytes::seed;

const PUBLIC: &str = "25e441d2b6f59c4bf7210fe82ef554ad9ab38cd474492b4ea132304f6118d5ee";

// The SHA-256 of the signatures of "a text" by leaves 0 and 37.
const BY_LEAF_0: &str = "95056325b1906617d21796d9f90db7515f7f909e08c17be82f08fee17a109f5b";

const BY_LEAF_37: &str = "fd1ee6ffc28f5163cc7eceabb9ac510a5c49144bcbca8b9645d99df3068a54ac";

fn is_digest(signature: &Signature, digest: &str) -> bool {
    is_code(Sha256::digest(signature.as_slice()), digest)
}

// Keys of a seed of this byte, by calls without a contract, so that the proofs don't compute them.
fn signer_of(byte: u8) -> Signer {
    Signer::from_seed(&[byte; 32])
}

fn tree_of(byte: u8) -> KeyTree {
    KeyTree::new(&[byte; 32])
}

// By the next leaf, at the second try if memory ran out at the first one. That spends no leaf.
fn signed(signer: &mut Signer, alloc: Global) -> Result<Signature, SignFault> {
    match signer.sign(alloc, b"a text") {
        Err(SignFault::NoMemory) => signer.sign(alloc, b"a text"),
        first => first,
    }
}

// By leaf 37, at the second try if memory ran out at the first one.
fn signed_by_37(tree: &KeyTree, alloc: Global) -> Result<Signature, AllocError> {
    match tree.sign_with(alloc, 37, b"a text") {
        Ok(signature) => Ok(signature),
        Err(_) => tree.sign_with(alloc, 37, b"a text"),
    }
}

fn copied(alloc: Global, signature: &Signature) -> Result<Option<Signature>, AllocError> {
    match Signature::from_bytes(alloc, signature.as_slice()) {
        Ok(copy) => Ok(copy),
        Err(_) => Signature::from_bytes(alloc, signature.as_slice()),
    }
}

// Passes whichever growth is refused, as by `tools/growths`: a second try gives the same as the first one gives if
// nothing is refused, by the same leaf.
#[test]
fn a_signer(rt: HostRuntime) -> Result<(), Fail> {
    let mut signer = signer_of(0);
    assert!(rt; is_code(signer.public(), PUBLIC));
    let first = signed(&mut signer, rt.alloc())?;
    assert!(rt; is_digest(&first, BY_LEAF_0));
    assert_eq!(rt; signer.used(), 1);
    Ok(())
}

fn has_copy(alloc: Global, signature: &Signature) -> Result<bool, AllocError> {
    let copy = copied(alloc, signature)?;
    Ok(copy.is_some_and(|copy| is_digest(&copy, BY_LEAF_37)))
}

fn signs_by_37(tree: &KeyTree, alloc: Global) -> Result<bool, AllocError> {
    let signature = signed_by_37(tree, alloc)?;
    Ok(
        is_digest(&signature, BY_LEAF_37)
            && verify(&tree.public(), b"a text", &signature)
            && has_copy(alloc, &signature)?,
    )
}

// Passes whichever growth is refused.
#[test]
fn a_tree_of_keys(rt: HostRuntime) -> Result<(), Fail> {
    let tree = tree_of(0);
    assert!(rt; is_code(tree.public(), PUBLIC));
    assert!(rt; signs_by_37(&tree, rt.alloc())?);
    Ok(())
}

// Whether it is the signature of this text alone, and under this key alone.
fn is_of_text(public: &[u8; 32], signature: &Signature) -> bool {
    verify(public, b"text", signature)
        && !verify(public, b"texu", signature)
        && !verify(&[7; 32], b"text", signature)
}

// Whether the bytes are no signature of the text once this one is changed.
fn counts(public: &[u8; 32], bytes: &mut [u8], at: usize) -> bool {
    if at >= bytes.len() {
        return false;
    }
    bytes[at] ^= 1;
    let is_refused = !verify_bytes(public, b"text", bytes);
    bytes[at] ^= 1;
    is_refused
}

// The first of these bytes that doesn't count: of the leaf, a secret, a public hash, the last of the pairs, and both
// ends of the path.
fn first_spare(public: &[u8; 32], bytes: &mut [u8]) -> Option<usize> {
    for at in [0, 1, 33, 16_384, 16_385, 16_576] {
        if !counts(public, bytes, at) {
            return Some(at);
        }
    }
    None
}

#[test]
fn each_part_counts(rt: HostRuntime) -> Result<(), Fail> {
    let mut signer = signer_of(7);
    let public = signer.public();
    let signature = signer.sign(rt.alloc(), b"text")?;
    assert!(rt; is_of_text(&public, &signature));
    let mut bytes = signature.into_bytes();
    assert_eq!(rt; bytes.len(), SIGNATURE_LEN);
    assert_eq!(rt; first_spare(&public, &mut bytes), None);
    assert!(rt; verify_bytes(&public, b"text", &bytes));
    Ok(())
}

// Whether a signer that used so many leaves signs by the next one.
fn signs(signer: &mut Signer, alloc: Global, leaf: u8) -> Result<bool, SignFault> {
    let used = signer.used();
    let public = signer.public();
    let signature = signer.sign(alloc, b"text")?;
    Ok(used == leaf && verify(&public, b"text", &signature))
}

#[test]
fn keys_are_spent(rt: HostRuntime) -> Result<(), Fail> {
    let mut signer = signer_of(1);
    for leaf in 0..LEAVES {
        assert!(rt; signs(&mut signer, rt.alloc(), leaf)?);
    }
    assert!(rt; signer.sign(rt.alloc(), b"text").err() == Some(SignFault::KeysSpent));
    assert_eq!(rt; signer.used(), LEAVES);
    Ok(())
}

// The public key of replica 2 under the seed 00 01 .. 1f, by the same program.
const PUBLIC_OF_2: &str = "dcff933adeb0d86920aaf05cc53c0b3533f358a52eececea5f9df5aa8b305905";

// Whether replica 2 alone has signed this text alone.
fn is_of_replica_2(keys: &PublicKeys, signature: &[u8]) -> bool {
    keys.verify(Party::Replica(ReplicaId(2)), b"text", signature)
        && !keys.verify(Party::Replica(ReplicaId(1)), b"text", signature)
        && !keys.verify(Party::Replica(ReplicaId(2)), b"texu", signature)
}

// Neither this replica nor a client has a key.
fn has_no_key(keys: &PublicKeys, replica: u8) -> bool {
    keys.public(Party::Replica(ReplicaId(replica))).is_none()
        && keys.public(Party::Client(ClientId { number: 0 })).is_none()
}

#[test]
fn public_keys_of_replicas(rt: HostRuntime) -> Result<(), Fail> {
    let mut signer = Signer::from_seed(&signing_seed(&seed(), Party::Replica(ReplicaId(2))));
    let signature = signer.sign(rt.alloc(), b"text")?;
    let keys = PublicKeys::new(rt.alloc(), &seed(), 1)?;
    assert!(rt; is_of_replica_2(&keys, signature.as_slice()) && has_no_key(&keys, 4));
    let known = known_keys(rt.alloc())?;
    assert!(rt; is_of_replica_2(&known, signature.as_slice()) && has_no_key(&known, 3));
    Ok(())
}

// Keys that no seed gives, but for that of replica 2.
fn known_keys(alloc: Global) -> Result<PublicKeys, Fail> {
    let key = <[u8; 32]>::from_hex(PUBLIC_OF_2)?;
    let keys = vec![in alloc; [7; 32], [7; 32], key]?;
    Ok(PublicKeys::of_replicas(alloc, keys)?)
}

fn is_key_of_2(keys: &PublicKeys) -> bool {
    keys.public(Party::Replica(ReplicaId(2)))
        .is_some_and(|key| is_code(key, PUBLIC_OF_2))
}

// Two owners in two threads, and then one of them again, when the key is kept.
#[test]
fn threads_share_public_keys(rt: HostRuntime) -> Result<(), Fail> {
    let keys = PublicKeys::new(rt.alloc(), &seed(), 1)?;
    let shared = keys.share()?;
    let (here, there) = join(&rt, || is_key_of_2(&keys), || is_key_of_2(&shared));
    assert!(rt; here && there && is_key_of_2(&shared));
    Ok(())
}

// Whether bytes that begin with this one are a signature, and come back then.
fn is_form(alloc: Global, first: u8) -> Result<bool, AllocError> {
    let mut bytes = vec![in alloc; 0; SIGNATURE_LEN]?;
    bytes[0] = first;
    let found = Signature::from_bytes(alloc, &bytes)?;
    Ok(found.is_some_and(|signature| signature.as_slice() == bytes.as_slice()))
}

fn is_short_form(alloc: Global) -> Result<bool, AllocError> {
    let bytes = vec![in alloc; 0; SIGNATURE_LEN - 1]?;
    let found = Signature::from_bytes(alloc, &bytes)?;
    Ok(found.is_some())
}

#[test]
fn forms(rt: HostRuntime) -> Result<(), Fail> {
    assert!(rt; !is_short_form(rt.alloc())?);
    assert!(rt; !is_form(rt.alloc(), 64)?);
    assert!(rt; is_form(rt.alloc(), 63)?);
    Ok(())
}
