//! Operations and answers.

use std::alloc::Global;
use tuple_codec::{Op, decode_op};

/// The operation `rdp (*)`.
pub const READ: &[u8] = b"\x22\x01\x10";

/// The operation `inp (*)`.
pub const TAKE: &[u8] = b"\x23\x01\x10";

/// The answer to a write.
pub const DONE: &[u8] = b"\x31";

/// The answer that there is no such tuple.
pub const ABSENT: &[u8] = b"\x33";

/// The operation of these bytes, at the second try where memory ran out at the first one.
pub fn read_op(alloc: Global, bytes: &[u8]) -> Option<Op<Global>> {
    match decode_op(alloc, bytes) {
        Ok((op, _)) => Some(op),
        Err(_) => decode_op(alloc, bytes).ok().map(|(op, _)| op),
    }
}
