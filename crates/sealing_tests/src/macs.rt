//! Message authentication codes.

use crate::codes::is_code;
use authenticator::{Key, hmac, same, signing_seed};
use hex::FromHex;
use sha2::{Digest, Sha256};
use terms::{Party, ReplicaId};
use test_bytes::seed;

// Tests take codes by calls without a contract, so that their proofs don't compute them.
fn code_of(key: &[u8], text: &[u8]) -> [u8; 32] {
    hmac(key, text)
}

// The bytes 1 to 25.
const ASCENDING: &[u8] = &[
    1, 2, 3, 4, 5, 6, 7, 8, 9, 10, 11, 12, 13, 14, 15, 16, 17, 18, 19, 20, 21, 22, 23, 24, 25,
];

// RFC 4231, test cases 1 to 4, 6 and 7: a key, a text and its code.
static VECTORS: [(&[u8], &[u8], &str); 6] = [
    (
        &[0x0b; 20],
        b"Hi There",
        "b0344c61d8db38535ca8afceaf0bf12b881dc200c9833da726e9376c2e32cff7",
    ),
    (
        b"Jefe",
        b"what do ya want for nothing?",
        "5bdcc146bf60754e6a042426089575c75a003f089d2739839dec58b964ec3843",
    ),
    (
        &[0xaa; 20],
        &[0xdd; 50],
        "773ea91e36800e46854db8ebd09181a72959098b3ef8c122d9635514ced565fe",
    ),
    (
        ASCENDING,
        &[0xcd; 50],
        "82558a389a443c0ea4cc819899f2083a85f0faa3e578f8077a2e3ff46729665b",
    ),
    (
        &[0xaa; 131],
        b"Test Using Larger Than Block-Size Key - Hash Key First",
        "60e431591ee0b67f0d8a26aacbf5b77f8e0bc6213728c5140546040f0ee37f54",
    ),
    (
        &[0xaa; 131],
        b"This is a test using a larger than block-size key and a larger than block-size data. The key needs to be hashed before being used by the HMAC algorithm.",
        "9b09ffa71b942fcb27635fbcd5b0e944bfdc63644f0713938a7f51535c3a35e2",
    ),
];

#[test]
fn vectors(rt: HostRuntime) {
    for &(key, text, code) in &VECTORS {
        assert!(rt; is_code(code_of(key, text), code), "{code}");
    }
}

// RFC 4231, test case 5, which gives the first 16 bytes alone.
#[test]
fn truncated_vector(rt: HostRuntime) {
    let code = code_of(&[0x0c; 20], b"Test With Truncation");
    let expected = <[u8; 16]>::from_hex("a3b6167473100ee06e0c796c2955552b").ok();
    assert!(rt; expected == <[u8; 16]>::try_from(&code[..16]).ok());
}

fn digest_of(bytes: &[u8]) -> [u8; 32] {
    Sha256::digest(bytes)
}

#[test]
fn keys_about_the_length_of_a_block(rt: HostRuntime) {
    let long = [7; 65];
    assert!(rt; code_of(&long, b"text") == code_of(&digest_of(&long), b"text"));
    let mut filled = [0; 64];
    filled[0] = 7;
    assert!(rt; code_of(&[7], b"text") == code_of(&filled, b"text"));
}

// Whether a key that is made once gives each text its code.
fn serves(key: &[u8], texts: &[&[u8]]) -> bool {
    let made = Key::new(key);
    for text in texts {
        if made.mac(text) != hmac(key, text) {
            return false;
        }
    }
    true
}

#[test]
fn a_key_serves_many_texts(rt: HostRuntime) {
    assert!(rt; serves(b"Jefe", &[b"", b"what do ya want for nothing?", b"another"]));
}

// Texts of one length with their codes under the key "Jefe". The first is of RFC 4231, the others of Python's hmac.
static EACH: [(&[u8; 28], &str); 4] = [
    (
        b"what do ya want for nothing?",
        "5bdcc146bf60754e6a042426089575c75a003f089d2739839dec58b964ec3843",
    ),
    (
        b"what do ya want for nothing!",
        "b3e375524094b7a3fd1c0bacdd4c1f327843ee972e67164831d35b68718cd2b2",
    ),
    (
        b"sixteen and a dozen of bytes",
        "b716b0f71e37960fb08820aec04408ab5f20f0ac71371afdfa9a8c5db63f2c90",
    ),
    (
        &[
            0, 1, 2, 3, 4, 5, 6, 7, 8, 9, 10, 11, 12, 13, 14, 15, 16, 17, 18, 19, 20, 21, 22, 23,
            24, 25, 26, 27,
        ],
        "f11ade3dbd392773fa2c1420bcebb55e0cab03fc0d718827a3edde52736fc367",
    ),
];

// Whether a key gives each text its code, with four computed together. The texts come in this order and turned round.
fn serves_four(key: &[u8], rows: &[(&[u8; 28], &str); 4]) -> bool {
    let made = Key::new(key);
    let [(a, first), (b, second), (c, third), (d, fourth)] = *rows;
    let [p, q, r, s] = made.mac_each([a, b, c, d]);
    let [t, u, v, w] = made.mac_each([d, c, b, a]);
    is_code(p, first)
        && is_code(q, second)
        && is_code(r, third)
        && is_code(s, fourth)
        && [t, u, v, w] == [s, r, q, p]
}

#[test]
fn a_key_serves_four_texts_at_once(rt: HostRuntime) {
    assert!(rt; serves_four(b"Jefe", &EACH));
}

#[test]
fn each_byte_counts(rt: HostRuntime) {
    let code = code_of(b"Jefe", b"text");
    assert!(rt; same(&code, &code_of(b"Jefe", b"text")));
    for i in 0..32 {
        let mut other = code;
        other[i] ^= 1;
        assert!(rt; !same(&code, &other));
        other[i] ^= 0x81;
        assert!(rt; !same(&code, &other));
    }
}

// Python's hmac: hmac(seed, 53 || be16 2).
#[test]
fn a_replica_has_a_seed_of_signatures(rt: HostRuntime) {
    let expected = "b1d311e8c0d6c6f194e1d70c6d592c078636435b2a225a82262305bed1fb2986";
    assert!(rt;
        is_code(
            signing_seed(&seed(), Party::Replica(ReplicaId(2))),
            expected
        )
    );
}
