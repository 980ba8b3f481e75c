//! Steps of a schedule.

use std::alloc::Global;
use terms::{ClientId, Party};
use tuple_codec::Op;

/// The next step of a schedule.
#[derive(Drop)]
pub enum Step {
    /// The client calls the operation.
    Invoke {
        client: ClientId,
        op: Op<Global>,
    },
    /// The party gets a frame. Frames are numbered from 0, in the order in which they are made.
    Deliver {
        frame: u64,
        party: Party,
    },
    /// The party gets these bytes.
    Feed {
        party: Party,
        bytes: Vec<u8>,
    },
    /// The faulty sender makes a frame of this body, with MACs for these receivers.
    Seal {
        sender: Party,
        receivers: Vec<Party>,
        body: Vec<u8>,
    },
    /// The faulty replica makes a frame of this body for these receivers, signed with this leaf of its keys.
    Sign {
        signer: Party,
        leaf: u64,
        receivers: Vec<Party>,
        body: Vec<u8>,
    },
    /// The party learns that time went by.
    Tick {
        party: Party,
    },
    /// Each frame goes to each of its correct receivers that didn't get it yet.
    Flush,
}
