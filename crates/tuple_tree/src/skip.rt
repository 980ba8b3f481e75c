//! The bytes after a value or a field. The bytes are a tuple's or a template's own, so that no text is tested again.

ghost use Rattle.std.specs.Prelude.{◌≡◌, ◌+◌, ◌*◌};
ghost use Rattle.tuple_tree.specs.Results.{Yields};
ghost use Rattle.tuple_tree.specs.Reading.{rest_of, number_of, string_at, flag_at, item_at, items_at};
ghost use Rattle.tuple_tree.specs.Loose.{loose_at, loose_slot_at};

use crate::limits::MAX_FIELDS;
use crate::reading::{read_byte, read_flag, read_string};

// Passes a number of so many bytes.
#[tactic(auto, unfolding(crate::specs::Reading::number_of))]
fn skip_number(bytes: &[u8], n: usize) -> Option<&[u8]>
    ensures { Yields (λ rest. rest.now) result (rest_of (number_of n bytes.now)) }
{
    if bytes.len() < n {
        return None;
    }
    Some(bytes.split_at(n).1)
}

fn skip_string(bytes: &[u8]) -> Option<&[u8]>
    ensures { Yields (λ rest. rest.now) result (rest_of (string_at bytes.now)) }
{
    match read_string(bytes) {
        Some((_, rest)) => Some(rest),
        None => None,
    }
}

fn skip_flag(bytes: &[u8]) -> Option<&[u8]>
    ensures { Yields (λ rest. rest.now) result (rest_of (flag_at bytes.now)) }
{
    match read_flag(bytes) {
        Some((_, rest)) => Some(rest),
        None => None,
    }
}

/// Passes a value that is no tuple, after its tag.
#[tactic(auto, unfolding(crate::specs::Loose::loose_at))]
pub fn skip_atom(tag: u8, bytes: &[u8]) -> Option<&[u8]>
    ensures { Yields (λ rest. rest.now) result (rest_of (loose_at tag bytes.now)) }
{
    match tag {
        1 => skip_number(bytes, 8),
        2 => skip_string(bytes),
        3 => skip_string(bytes),
        4 => skip_flag(bytes),
        6 => skip_number(bytes, 16),
        _ => None,
    }
}

/// Passes a tuple with at most so many levels below its own, after its tag.
#[tactic(auto, unfolding(crate::specs::Reading::items_with))]
#[cycle(skip_values)]
pub fn skip_values(bytes: &[u8], levels: u8) -> Option<&[u8]>
    ensures { Yields (λ rest. rest.now) result (rest_of (items_at loose_at levels bytes.now)) }
{
    let (count, values) = read_byte(bytes)?;
    if count as usize > MAX_FIELDS {
        return None;
    }
    let mut rest = values;
    for _i in 0..count {
        rest = skip_value(rest, levels)?;
    }
    Some(rest)
}

/// Passes a value with at most so many levels in it.
#[tactic(auto, unfolding(crate::specs::Reading::item_with))]
#[cycle(skip_values)]
pub fn skip_value(bytes: &[u8], levels: u8) -> Option<&[u8]>
    ensures { Yields (λ rest. rest.now) result (rest_of (item_at loose_at levels bytes.now)) }
{
    let (tag, rest) = read_byte(bytes)?;
    if tag != 5 {
        return skip_atom(tag, rest);
    }
    if levels == 0 {
        return None;
    }
    skip_values(rest, levels - 1)
}

/// Passes a template with at most so many levels below its own, after its tag.
#[tactic(auto, unfolding(crate::specs::Reading::items_with))]
#[cycle(skip_fields)]
pub fn skip_fields(bytes: &[u8], levels: u8) -> Option<&[u8]>
    ensures { Yields (λ rest. rest.now) result (rest_of (items_at loose_slot_at levels bytes.now)) }
{
    let (count, fields) = read_byte(bytes)?;
    if count as usize > MAX_FIELDS {
        return None;
    }
    let mut rest = fields;
    for _i in 0..count {
        rest = skip_field(rest, levels)?;
    }
    Some(rest)
}

/// Passes a field with at most so many levels in it.
#[tactic(auto, unfolding(crate::specs::Reading::item_with))]
#[cycle(skip_fields)]
pub fn skip_field(bytes: &[u8], levels: u8) -> Option<&[u8]>
    ensures { Yields (λ rest. rest.now) result (rest_of (item_at loose_slot_at levels bytes.now)) }
{
    let (tag, rest) = read_byte(bytes)?;
    if tag != 5 {
        return skip_slot(tag, rest);
    }
    if levels == 0 {
        return None;
    }
    skip_fields(rest, levels - 1)
}

#[tactic(auto, unfolding(crate::specs::Loose::loose_slot_at))]
fn skip_slot(tag: u8, bytes: &[u8]) -> Option<&[u8]>
    ensures { Yields (λ rest. rest.now) result (rest_of (loose_slot_at tag bytes.now)) }
{
    match tag {
        0x10 | 0x11 | 0x12 | 0x13 | 0x14 | 0x15 | 0x16 => Some(bytes),
        _ => skip_atom(tag, bytes),
    }
}
