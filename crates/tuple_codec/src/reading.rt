//! The front of bytes within which a tuple or template ends.

ghost use Rattle.std.specs.Prelude.{◌≡◌, ◌≤◌, length, take};

use tuple_tree::MAX_LEN;

/// The bytes within which a tuple or template ends: the first 1,024.
pub fn frame(bytes: &[u8]) -> &[u8]
    ensures value { result.now ≡ take 1024 bytes.now }
    ensures bound { length result.now ≤ 1024 }
{
    if bytes.len() <= MAX_LEN {
        bytes
    } else {
        &bytes[..MAX_LEN]
    }
}
