//! The first difference between lists of digests.

ghost use Rattle.std.specs.Prelude.{◌≡◌, IfNone, IfSome};
ghost use Rattle.state_transfer.specs.Differences.{IsFirstDifference};

use partition_tree::CHILDREN;
use terms::Digest;

/// The first place at which the digests of a part's children differ.
pub fn first_difference(wanted: &[Digest; CHILDREN], held: &[Digest; CHILDREN]) -> Option<usize>
    ensures none { IfNone result (wanted.now ≡ held.now) }
    ensures some { IfSome result (IsFirstDifference wanted.now held.now) }
{
    for child in 0..CHILDREN {
        if wanted[child] != held[child] {
            return Some(child);
        }
    }
    None
}
