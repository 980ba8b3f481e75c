//! Bytes, numbers, strings and flags at the front of bytes. Nothing here takes memory.

ghost use Rattle.std.specs.Prelude.{◌≡◌, ◌+◌, ◌≤◌, length, drop, Some};
ghost use Rattle.tuple_tree.specs.Values.{number, wide};
ghost use Rattle.tuple_tree.specs.Results.{Yields};
ghost use Rattle.tuple_tree.specs.Reading.{byte_at, bytes_at, number_of, signed_at, wide_at, string_at, text_at};
ghost use Rattle.tuple_tree.specs.Reading.{flag_at};

use byteorder::{BigEndian, ByteOrder};
use std::str;

pub fn read_byte(bytes: &[u8]) -> Option<(u8, &[u8])>
    ensures { Yields (λ x. (x.0, x.1.now)) result (byte_at bytes.now) }
{
    match bytes {
        [first, rest @ ..] => Some((*first, rest)),
        [] => None,
    }
}

#[tactic(auto, unfolding(crate::specs::Reading::bytes_at))]
fn read_bytes(bytes: &[u8], n: usize) -> Option<(&[u8], &[u8])>
    ensures { Yields (λ x. (x.0.now, x.1.now)) result (bytes_at n bytes.now) }
{
    if bytes.len() < n {
        return None;
    }
    Some(bytes.split_at(n))
}

#[tactic(auto, unfolding(crate::specs::Reading::number_of))]
fn read_length(bytes: &[u8]) -> Option<(u16, &[u8])>
    ensures { Yields (λ x. (x.0, x.1.now)) result (number_of 2 bytes.now) }
{
    if bytes.len() < 2 {
        return None;
    }
    Some((BigEndian::read_u16(bytes), &bytes[2..]))
}

/// A signed number of 64 bits.
#[tactic(auto, unfolding(crate::specs::Reading::number_of))]
pub fn read_number(bytes: &[u8]) -> Option<(i64, &[u8])>
    ensures { Yields (λ x. (number x.0, x.1.now)) result (signed_at bytes.now) }
{
    if bytes.len() < 8 {
        return None;
    }
    Some((BigEndian::read_i64(bytes), &bytes[8..]))
}

/// A signed number of 128 bits.
pub fn read_wide(bytes: &[u8]) -> Option<(i128, &[u8])>
    ensures { Yields (λ x. (wide x.0, x.1.now)) result (wide_at bytes.now) }
{
    if bytes.len() < 16 {
        return None;
    }
    Some((wide_of(bytes), &bytes[16..]))
}

// The number that the first 16 bytes spell.
fn wide_of(bytes: &[u8]) -> i128
    requires { 16 ≤ length bytes.now }
    ensures { wide_at bytes.now ≡ Some (wide result, drop 16 bytes.now) }
{
    BigEndian::read_i128(bytes)
}

/// A length, and then so many bytes.
#[tactic(auto, unfolding(crate::specs::Reading::string_at))]
pub fn read_string(bytes: &[u8]) -> Option<(&[u8], &[u8])>
    ensures { Yields (λ x. (x.0.now, x.1.now)) result (string_at bytes.now) }
{
    let (len, rest) = read_length(bytes)?;
    read_bytes(rest, len as usize)
}

/// A length, and then so many bytes of UTF-8.
#[tactic(auto, unfolding(crate::specs::Reading::text_at))]
pub fn read_text(bytes: &[u8]) -> Option<(&str, &[u8])>
    ensures { Yields (λ x. (x.0.now, x.1.now)) result (text_at bytes.now) }
{
    let (string, rest) = read_string(bytes)?;
    match str::from_utf8(string) {
        Ok(text) => Some((text, rest)),
        Err(_) => None,
    }
}

/// 00 for false, 01 for true.
#[tactic(auto, unfolding(crate::specs::Reading::flag_at))]
pub fn read_flag(bytes: &[u8]) -> Option<(bool, &[u8])>
    ensures { Yields (λ x. (x.0, x.1.now)) result (flag_at bytes.now) }
{
    let (byte, rest) = read_byte(bytes)?;
    match byte {
        0 => Some((false, rest)),
        1 => Some((true, rest)),
        _ => None,
    }
}
