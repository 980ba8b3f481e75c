//! Authenticators after the body of a frame.

ghost use Rattle.std.specs.Prelude.{true, false};
ghost use Rattle.tuple_tree.specs.Results.{Yields};
ghost use Rattle.wire_format.specs.Messages.{macs, signature};
ghost use Rattle.wire_format.specs.Reading.{authenticator_of};

use crate::mac_bytes::{MacBytes, read_macs};
use crate::reading::read_byte;
use wire_format::{SIGNATURE_KEYS, SIGNATURE_LEN};

/// The MACs that the bytes, whole, spell, where they lie.
pub fn read_mac_authenticator(bytes: &[u8]) -> Option<MacBytes<'_>>
    ensures { Yields macs result (authenticator_of false bytes.now) }
{
    let (kind, rest) = read_byte(bytes)?;
    if kind != 0 {
        return None;
    }
    let (macs, rest) = read_macs(rest)?;
    if !rest.is_empty() {
        return None;
    }
    Some(macs)
}

/// The signature that the bytes, whole, spell.
pub fn read_signature_authenticator(bytes: &[u8]) -> Option<&[u8]>
    ensures { Yields (λ s. signature s.now) result (authenticator_of true bytes.now) }
{
    let (kind, rest) = read_byte(bytes)?;
    if kind != 1 || rest.len() != SIGNATURE_LEN || rest[0] >= SIGNATURE_KEYS {
        return None;
    }
    Some(rest)
}
