//! A batch with its digest.

ghost use Rattle.std.specs.Prelude.{◌≡◌};
ghost use Rattle.sha2.specs.Sha256.{sha256};

use sha2::{Digest as _, Sha256};
use std::marker::Model;
use terms::Digest;
use wire::Batch;

/// A batch with the digest of its text. The digest is computed once.
#[derive(Drop)]
pub struct HashedBatch {
    batch: Batch,
    digest: Digest,
}

impl Model for HashedBatch {
    ghost use Rattle.std.specs.Prelude.{◌≡◌, List, ℕ};
    ghost use Rattle.sha2.specs.Sha256.{sha256};

    ghost Value = { List ℕ };

    ghost view = { λ b. b.batch.text.items };

    ghost invariant = { λ b. b.digest ≡ sha256 b.batch.text.items };
}

impl HashedBatch {
    /// Hashes a batch.
    pub fn new(batch: Batch) -> HashedBatch
        ensures { result ≡ batch.text.items }
    {
        let digest = Sha256::digest(&batch.text);
        HashedBatch { batch, digest }
    }

    /// The batch's text.
    pub fn text(&self) -> &[u8]
        ensures { result.now ≡ self.now }
    {
        &self.batch.text
    }

    /// The digest of the batch's text.
    pub fn digest(&self) -> Digest
        ensures { result ≡ sha256 self.now }
    {
        self.digest
    }
}
