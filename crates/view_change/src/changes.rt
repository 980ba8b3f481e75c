//! View changes of others, and the selection over them.

ghost use Rattle.std.specs.Prelude.{◌≤◌};

use ordering::HashedBatch;
use std::sync::Arc;
use terms::{Digest, Number, ReplicaId};
use wire::ViewChange;

/// How many replicas may be faulty, up to 3, and the number of batches from one checkpoint to the next, 1 to 16.
#[derive(Clone, Copy, Drop)]
pub struct Sizes {
    pub faults: u8,
    pub period: u8,
    ghost few: { faults ≤ 3 },
    ghost some: { 1 ≤ period },
    ghost short: { period ≤ 16 },
}

/// A view change, with its sender.
#[derive(Drop)]
pub struct Change {
    pub sender: ReplicaId,
    pub change: ViewChange,
}

/// A view change that its sender signed, with its frame.
#[derive(Drop)]
pub struct SignedChange {
    pub change: Change,
    pub frame: Vec<u8>,
}

/// A question about a view change.
#[derive(Clone, Copy)]
pub(crate) enum Rule {
    /// Every view change passes.
    Any,
    /// Its low mark is at or below the number.
    LowAtMost(Number),
    /// It lists a checkpoint of this number with this root.
    Lists(Number, Digest),
    /// Its low mark is below the number. What it prepared for the number is of an earlier view, or of this view and
    /// digest.
    Agrees(Number, u64, Digest),
    /// It pre-prepared this digest for the number in this view or a later one.
    Vouches(Number, u64, Digest),
    /// Its low mark is below the number, and it has nothing prepared for the number.
    Nothing(Number),
}

/// The selection: what a new view begins with.
#[derive(Drop)]
pub struct Selection {
    /// The number of the checkpoint at which it starts.
    pub start: Number,
    /// The root of that checkpoint's state.
    pub root: Digest,
    /// The batches for the numbers from `start` plus 1 on.
    pub batches: Vec<Arc<HashedBatch>>,
}
