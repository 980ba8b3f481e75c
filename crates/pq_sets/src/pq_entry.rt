//! An entry of P or Q: a batch that the replica prepared or logged for a number.

ghost use Rattle.std.specs.Prelude.{◌≡◌};
ghost use Rattle.std.specs.Arc.{arc_value};
ghost use Rattle.sha2.specs.Sha256.{sha256};

use ordering::HashedBatch;
use std::sync::Arc;
use wire::BatchEntry;

/// A batch that a replica prepared or logged for a number, with the entry of its view changes for it.
#[derive(Drop)]
pub(crate) struct PqEntry {
    pub(crate) entry: BatchEntry,
    pub(crate) batch: Arc<HashedBatch>,
    ghost named: { entry.digest ≡ sha256 (arc_value batch) },
}

/// What distinguishes and orders the entries of one set: the number, or the number and then the digest.
#[derive(Clone, Copy, Drop)]
pub(crate) enum PqOrder {
    Number,
    NumberAndDigest,
}
