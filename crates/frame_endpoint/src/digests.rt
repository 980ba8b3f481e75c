//! A proof hint on digests.

ghost use Rattle.wire_format.specs.Lists.{Each};
ghost use Rattle.wire_format.specs.Spelling.{IsDigest};

use terms::Digest;
use wire_format::note_digest;

/// Tells a proof that each of the digests that the program holds is one.
pub(crate) fn note_digests(digests: &[Digest])
    ensures { Each IsDigest digests.now }
{
    for digest in digests {
        note_digest(digest);
    }
}
