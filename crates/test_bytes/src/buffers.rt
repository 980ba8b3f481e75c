//! Bytes that are written piece by piece.

use crate::answers::Verdict;
use crate::macs::mac_for;
use sha2::{Digest, Sha256};
use std::alloc::{AllocError, Global};
use terms::NoMemory;

/// Bytes that are put behind each other. If memory runs out some are missing, and whoever asks for all of them learns
/// it. So a function that puts bytes has no way out but its end, and is short to prove.
#[derive(Drop)]
pub struct Buffer {
    bytes: Vec<u8>,
    is_cut: bool,
}

impl Buffer {
    pub fn new(alloc: Global) -> Buffer {
        Buffer {
            bytes: Vec::new(alloc),
            is_cut: false,
        }
    }

    /// The bytes, as far as memory was there.
    pub fn bytes(&self) -> &[u8] {
        &self.bytes
    }

    /// Whether memory was there for all of them.
    pub fn is_whole(&self) -> bool {
        !self.is_cut
    }

    /// Says that memory ran out for what should stand here.
    pub fn cut(&mut self) {
        self.is_cut = true;
    }

    pub fn put(&mut self, bytes: &[u8]) {
        if self.bytes.extend_from_slice(bytes).is_err() {
            self.is_cut = true;
        }
    }

    pub fn put_byte(&mut self, byte: u8) {
        self.put(&[byte]);
    }

    /// Puts a number in two bytes.
    pub fn put_short(&mut self, number: u16) {
        self.put(&number.to_be_bytes());
    }

    /// Puts a number in eight bytes.
    pub fn put_number(&mut self, number: u64) {
        self.put(&number.to_be_bytes());
    }

    /// Puts bytes behind their length.
    pub fn put_piece(&mut self, bytes: &[u8]) {
        let len = (bytes.len() & 0xff_ffff) as u32;
        self.put(&len.to_be_bytes());
        self.put(bytes);
    }

    /// Puts the bytes of another one behind their length.
    pub fn put_framed(&mut self, other: &Buffer) {
        self.put_piece(&other.bytes);
        self.is_cut |= other.is_cut;
    }

    /// Puts the bytes of another one.
    pub fn put_buffer(&mut self, other: &Buffer) {
        self.put(&other.bytes);
        self.is_cut |= other.is_cut;
    }

    /// Puts the SHA-256 of the bytes of another one.
    pub fn put_digest(&mut self, other: &Buffer) {
        let digest: [u8; 32] = Sha256::digest(other.bytes.as_slice());
        self.put(&digest);
        self.is_cut |= other.is_cut;
    }

    /// Puts the MAC of a body for a receiver, by the parties' numbers, behind the receiver.
    pub fn put_mac(&mut self, sender: u16, receiver: u16, body: &[u8]) {
        self.put_short(receiver);
        self.put(&mac_for(sender, receiver, body));
    }

    /// Turns these bits of a byte, if it is there.
    pub fn turn(&mut self, place: usize, bits: u8) {
        if let Some(byte) = self.bytes.get_mut(place) {
            *byte ^= bits;
        }
    }

    /// Ends with this verdict on the bytes, if none is missing.
    pub fn end(self, verdict: Verdict) -> Verdict {
        if self.is_cut { Err(NoMemory) } else { verdict }
    }

    /// Whether they are these.
    pub fn is(&self, bytes: &[u8]) -> Verdict {
        if self.is_cut {
            return Err(NoMemory);
        }
        Ok(self.bytes.as_slice() == bytes)
    }

    /// All bytes.
    pub fn whole(self) -> Result<Vec<u8>, AllocError> {
        if self.is_cut {
            Err(AllocError)
        } else {
            Ok(self.bytes)
        }
    }
}
