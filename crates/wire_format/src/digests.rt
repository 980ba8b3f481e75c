//! A proof hint on digests.

ghost use Rattle.wire_format.specs.Spelling.{IsDigest};

use terms::Digest;

/// Tells a proof that a digest has 32 bytes.
pub fn note_digest(digest: &Digest)
    ensures { IsDigest digest.now }
{
    let _first = digest[0];
}
