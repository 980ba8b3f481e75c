//! The order of digests.

ghost use Rattle.std.specs.Prelude.{◌≡◌};
ghost use Rattle.wire_format.specs.Spelling.{bytes_before};

/// Whether the one comes before the other, by the first byte that differs.
pub fn is_less(digest: &[u8], other: &[u8]) -> bool
    ensures { result ≡ bytes_before digest.now other.now }
{
    let [x, xs @ ..] = digest else {
        return false;
    };
    let [y, ys @ ..] = other else {
        return false;
    };
    *x < *y || (*x == *y && is_less(xs, ys))
}
