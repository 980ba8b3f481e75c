//! Bytes that begin with others.

ghost use Rattle.std.specs.Prelude.{◌≡◌, ◌≤◌, ◌∷◌, length, IsTrue, ◌↔◌};
ghost use Rattle.tuple_tree.specs.Results.{Yields};
ghost use Rattle.template_match.specs.Walks.{strip};

use tuple_tree::read_byte;

/// The bytes after a tag and a front, if the bytes begin with these.
pub fn strip_behind<'b>(tag: u8, front: &[u8], bytes: &'b [u8]) -> Option<&'b [u8]>
    ensures { Yields (λ rest. rest.now) result (strip (tag ∷ front.now) bytes.now) }
{
    let (first, rest) = read_byte(bytes)?;
    if first != tag {
        return None;
    }
    strip_front(front, rest)
}

/// The bytes after a front, if the bytes begin with it.
pub fn strip_front<'b>(front: &[u8], bytes: &'b [u8]) -> Option<&'b [u8]>
    ensures { Yields (λ rest. rest.now) result (strip front.now bytes.now) }
{
    if bytes.len() < front.len() {
        return None;
    }
    let (first, rest) = bytes.split_at(front.len());
    if same_bytes(first, front) {
        Some(rest)
    } else {
        None
    }
}

fn same_bytes(a: &[u8], b: &[u8]) -> bool
    ensures { IsTrue result ↔ (a.now ≡ b.now) }
{
    a == b
}
