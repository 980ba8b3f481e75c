//! HMAC (RFC 2104) with SHA-256, apart from the crate that is tested.

use crate::seeds::FRAME_SEED;
use sha2::{Digest, Sha256};

fn mixed(key: &[u8; 32], pad: u8) -> [u8; 64] {
    let mut block = [pad; 64];
    for i in 0..32 {
        block[i] ^= key[i];
    }
    block
}

fn hmac(key: &[u8; 32], text: &[u8]) -> [u8; 32] {
    let mut inner = Sha256::new();
    inner.update(&mixed(key, 0x36));
    inner.update(text);
    let mut outer = Sha256::new();
    outer.update(&mixed(key, 0x5c));
    outer.update(inner.finalize());
    outer.finalize()
}

/// The MAC of a body under the key from the sender to the receiver.
pub fn mac_for(sender: u16, receiver: u16, body: &[u8]) -> [u8; 32] {
    let [from_high, from_low] = sender.to_be_bytes();
    let [to_high, to_low] = receiver.to_be_bytes();
    let key = hmac(&FRAME_SEED, &[0x4d, from_high, from_low, to_high, to_low]);
    hmac(&key, body)
}
