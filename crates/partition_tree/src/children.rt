//! The digests of 32 children.

ghost use Rattle.std.specs.Prelude.{◌≡◌, ◌<◌, IfOk, replicate, slice_set};
ghost use Rattle.partition_tree.specs.Digests as spec;

use crate::digests::{CHILDREN, digest_of_children};
use std::alloc::{AllocError, Global};
use std::marker::Model;
use terms::Digest;

/// The digests of the children of the root or of an inner part. They lie in a block of their own, so that what has them
/// is small to move.
#[derive(Drop)]
pub struct Children {
    digests: Vec<Digest>,
}

impl Model for Children {
    ghost use Rattle.std.specs.Prelude.{ℕ, List, ◌≡◌, length};

    ghost Value = { List (List ℕ) };

    ghost view = { λ c. c.digests.items };

    ghost invariant = { λ c. length c.digests.items ≡ 32 };
}

impl Children {
    /// Children that all have the same digest.
    pub fn alike(alloc: Global, digest: Digest) -> Result<Children, AllocError>
        ensures { IfOk result (λ children. children ≡ replicate 32 digest) }
    {
        let digests = Vec::from_elem(alloc, digest, CHILDREN)?;
        Ok(Children { digests })
    }

    /// The digests in order.
    pub fn as_array(&self) -> &[Digest; CHILDREN]
        ensures { result.now ≡ self.now }
    {
        match self.digests.as_slice().first_chunk() {
            Some(digests) => digests,
            None => unreachable!(),
        }
    }

    /// The digest of their parent.
    pub fn digest(&self) -> Digest
        ensures { result ≡ spec.digest_of_children self.now }
    {
        digest_of_children(self.as_array())
    }

    /// Replaces the digest of a child.
    pub fn set(&mut self, child: usize, digest: Digest)
        requires { child < CHILDREN }
        ensures { self.new ≡ slice_set self.old child digest }
    {
        self.digests[child] = digest;
    }
}

impl Clone for Children {
    ghost is_clone = { λ p q. q ≡ p };

    fn clone(&self) -> Result<Children, AllocError> {
        let digests = self.digests.clone()?;
        Ok(Children { digests })
    }
}
