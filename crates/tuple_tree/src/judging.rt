//! Whether bytes spell a tuple or a template within the limits, and its parts. Nothing here takes memory.

ghost use Rattle.std.specs.Prelude.{◌≡◌, ◌+◌, ◌*◌, ◌≤◌, ◌||◌, IfSome};
ghost use Rattle.tuple_tree.specs.Values.{is_wide, is_wide_slot};
ghost use Rattle.tuple_tree.specs.Results.{Yields};
ghost use Rattle.tuple_tree.specs.Reading.{rest_of, datum_at, slot_at, item_at, items_at};
ghost use Rattle.tuple_tree.specs.Judging.{judged, judged_one, judged_leaf, items_judged};

use crate::limits::MAX_FIELDS;
use crate::reading::{read_byte, read_flag, read_number, read_string, read_text, read_wide};

/// The bytes after the tuple at the front.
pub fn behind_tuple(bytes: &[u8]) -> Option<&[u8]>
    ensures { Yields (λ rest. rest.now) result (rest_of (items_at datum_at 7 bytes.now)) }
{
    match judge_tuple(bytes, 7) {
        Some((_, _, rest)) => Some(rest),
        None => None,
    }
}

/// The bytes after the template at the front.
pub fn behind_template(bytes: &[u8]) -> Option<&[u8]>
    ensures { Yields (λ rest. rest.now) result (rest_of (items_at slot_at 7 bytes.now)) }
{
    match judge_template(bytes, 7) {
        Some((_, _, rest)) => Some(rest),
        None => None,
    }
}

/// A tuple with at most so many levels below its own: the levels below, whether there is a wide number, and the bytes
/// after it.
#[cycle(judge_tuple)]
pub fn judge_tuple(bytes: &[u8], levels: u8) -> Option<(u8, bool, &[u8])>
    ensures gives { Yields (λ x. (x.0, x.1, x.2.now)) result (judged is_wide (items_at datum_at levels bytes.now)) }
    ensures bound { IfSome result (λ x. x.0 ≤ levels) }
{
    let Some((count, values)) = read_byte(bytes) else {
        return None;
    };
    if count as usize > MAX_FIELDS {
        return None;
    }
    judge_values(count, values, levels)
}

// So many values with at most so many levels in each.
#[cycle(judge_tuple)]
fn judge_values(count: u8, bytes: &[u8], levels: u8) -> Option<(u8, bool, &[u8])>
    ensures gives { Yields (λ x. (x.0, x.1, x.2.now)) result (items_judged is_wide datum_at levels count bytes.now) }
    ensures bound { IfSome result (λ x. x.0 ≤ levels) }
{
    let mut below: u8 = 0;
    let mut wide = false;
    let mut rest = bytes;
    for _i in 0..count {
        let Some((depth, has_wide, after)) = judge_value(rest, levels) else {
            return None;
        };
        below = below.max(depth);
        wide = either(wide, has_wide);
        rest = after;
    }
    Some((below, wide, rest))
}

#[cycle(judge_tuple)]
fn judge_value(bytes: &[u8], levels: u8) -> Option<(u8, bool, &[u8])>
    ensures gives { Yields (λ x. (x.0, x.1, x.2.now)) result (judged_one is_wide (item_at datum_at levels bytes.now)) }
    ensures bound { IfSome result (λ x. x.0 ≤ levels) }
{
    let Some((tag, rest)) = read_byte(bytes) else {
        return None;
    };
    if tag != 5 {
        return match judge_atom(tag, rest) {
            Some((has_wide, rest)) => Some((0, has_wide, rest)),
            None => None,
        };
    }
    if levels == 0 {
        return None;
    }
    match judge_tuple(rest, levels - 1) {
        Some((below, has_wide, rest)) => Some((below + 1, has_wide, rest)),
        None => None,
    }
}

/// A template, as [`judge_tuple`] does it.
#[cycle(judge_template)]
pub fn judge_template(bytes: &[u8], levels: u8) -> Option<(u8, bool, &[u8])>
    ensures gives { Yields (λ x. (x.0, x.1, x.2.now)) result (judged is_wide_slot (items_at slot_at levels bytes.now)) }
    ensures bound { IfSome result (λ x. x.0 ≤ levels) }
{
    let Some((count, fields)) = read_byte(bytes) else {
        return None;
    };
    if count as usize > MAX_FIELDS {
        return None;
    }
    judge_fields(count, fields, levels)
}

// So many fields with at most so many levels in each.
#[cycle(judge_template)]
fn judge_fields(count: u8, bytes: &[u8], levels: u8) -> Option<(u8, bool, &[u8])>
    ensures gives { Yields (λ x. (x.0, x.1, x.2.now)) result
        (items_judged is_wide_slot slot_at levels count bytes.now) }
    ensures bound { IfSome result (λ x. x.0 ≤ levels) }
{
    let mut below: u8 = 0;
    let mut wide = false;
    let mut rest = bytes;
    for _i in 0..count {
        let Some((depth, has_wide, after)) = judge_field(rest, levels) else {
            return None;
        };
        below = below.max(depth);
        wide = either(wide, has_wide);
        rest = after;
    }
    Some((below, wide, rest))
}

#[cycle(judge_template)]
fn judge_field(bytes: &[u8], levels: u8) -> Option<(u8, bool, &[u8])>
    ensures gives { Yields (λ x. (x.0, x.1, x.2.now)) result
        (judged_one is_wide_slot (item_at slot_at levels bytes.now)) }
    ensures bound { IfSome result (λ x. x.0 ≤ levels) }
{
    let Some((tag, rest)) = read_byte(bytes) else {
        return None;
    };
    if tag != 5 {
        return match judge_slot(tag, rest) {
            Some((has_wide, rest)) => Some((0, has_wide, rest)),
            None => None,
        };
    }
    if levels == 0 {
        return None;
    }
    match judge_template(rest, levels - 1) {
        Some((below, has_wide, rest)) => Some((below + 1, has_wide, rest)),
        None => None,
    }
}

#[tactic(auto, unfolding(crate::specs::Reading::slot_at))]
fn judge_slot(tag: u8, bytes: &[u8]) -> Option<(bool, &[u8])>
    ensures { Yields (λ x. (x.0, x.1.now)) result (judged_leaf is_wide_slot (slot_at tag bytes.now)) }
{
    match tag {
        0x10 | 0x11 | 0x12 | 0x13 | 0x14 | 0x15 => Some((false, bytes)),
        0x16 => Some((true, bytes)),
        _ => judge_atom(tag, bytes),
    }
}

#[tactic(auto, unfolding(crate::specs::Reading::datum_at))]
fn judge_atom(tag: u8, bytes: &[u8]) -> Option<(bool, &[u8])>
    ensures { Yields (λ x. (x.0, x.1.now)) result (judged_leaf is_wide (datum_at tag bytes.now)) }
{
    match tag {
        1 => match read_number(bytes) {
            Some((_, rest)) => Some((false, rest)),
            None => None,
        },
        2 => match read_text(bytes) {
            Some((_, rest)) => Some((false, rest)),
            None => None,
        },
        3 => match read_string(bytes) {
            Some((_, rest)) => Some((false, rest)),
            None => None,
        },
        4 => match read_flag(bytes) {
            Some((_, rest)) => Some((false, rest)),
            None => None,
        },
        6 => match read_wide(bytes) {
            Some((_, rest)) => Some((true, rest)),
            None => None,
        },
        _ => None,
    }
}

fn either(one: bool, other: bool) -> bool
    ensures { result ≡ (one || other) }
{
    one || other
}
