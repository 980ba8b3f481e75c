//! The digests of pages and of parts.

ghost use Rattle.std.specs.Prelude.{◌≡◌};
ghost use Rattle.sha2.specs.Sha256.{sha256};
ghost use Rattle.partition_tree.specs.Digests as spec;

use sha2::{Digest as _, Sha256};
use terms::Digest;

/// How many children the root and each inner part have.
pub const CHILDREN: usize = 32;

/// The SHA-256 digest of a page's text.
pub fn digest(text: &[u8]) -> Digest
    ensures { result ≡ sha256 text.now }
{
    Sha256::digest(text)
}

/// The digest of a part: the SHA-256 digest of its children's 1,024 bytes of digests, in order.
pub fn digest_of_children(children: &[Digest; CHILDREN]) -> Digest
    ensures { result ≡ spec.digest_of_children children.now }
{
    digest(children.as_flattened())
}
