//! Frames: a body, and the authenticator that proves its sender.

use crate::messages::Body;
use arrayvec::ArrayVec;
use terms::{Party, ReplicaId};

/// The most receivers of one frame.
pub const MAX_RECEIVERS: usize = 10;

/// The length of a signature, in bytes.
pub const SIGNATURE_LEN: usize = 16_577;

/// How many keys a signature may be by. Its first byte is the key's number.
pub const SIGNATURE_KEYS: u8 = 64;

/// The length of the longest frame, in bytes.
pub const MAX_FRAME: usize = 4_194_304;

/// The length of the longest frame of a view change, in bytes.
pub const MAX_VIEW_CHANGE: usize = 262_144;

/// The MAC of a body for one receiver.
#[derive(Clone, Copy, Drop)]
pub struct ReceiverMac {
    pub receiver: Party,
    pub mac: [u8; 32],
}

impl Default for ReceiverMac {
    fn default() -> ReceiverMac {
        ReceiverMac {
            receiver: Party::Replica(ReplicaId(0)),
            mac: [0; 32],
        }
    }
}

/// The proof of a body. View changes and new views have signatures, all other messages MACs.
#[derive(Drop)]
pub enum Authenticator {
    /// For 1 to 10 receivers, ascending by their numbers.
    Macs(ArrayVec<ReceiverMac, MAX_RECEIVERS>),
    /// 16,577 bytes, the first from 0 to 63. This crate only carries them.
    Signature(Vec<u8>),
}

/// A body with its authenticator.
#[derive(Drop)]
pub struct Frame {
    pub body: Body,
    pub authenticator: Authenticator,
}
