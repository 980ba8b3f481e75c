//! A walk along the bytes of a template and of the values that it matches.

ghost use Rattle.std.specs.Prelude.{◌≡◌, ◌+◌, ◌*◌, Some};
ghost use Rattle.tuple_tree.specs.Results.{Yields};
ghost use Rattle.tuple_tree.specs.Reading.{byte_at};
ghost use Rattle.template_match.specs.Walks.{behind_value, behind_kind, behind_both, behind_one, behind_atom};
ghost use Rattle.template_match.specs.Walks.{behind_nested, value_tag};

use crate::strip::{strip_behind, strip_front};
use tuple_tree::{Kind, MAX_FIELDS, read_byte, skip_atom, skip_value};

/// So many fields at the front, of at most so many levels, and the values that they match: the bytes after both.
#[cycle(match_fields)]
pub fn match_fields<'f, 'b>(
    count: u8,
    fields: &'f [u8],
    values: &'b [u8],
    levels: u8,
) -> Option<(&'f [u8], &'b [u8])>
    ensures { Yields (λ x. (x.0.now, x.1.now)) result (behind_both levels count fields.now values.now) }
{
    let mut open = fields;
    let mut rest = values;
    for _i in 0..count {
        let Some((after, behind)) = match_field(open, rest, levels) else {
            return None;
        };
        open = after;
        rest = behind;
    }
    Some((open, rest))
}

#[tactic(auto, unfolding(crate::specs::Walks::behind_one, crate::specs::Walks::behind_atom, crate::specs::Walks::behind_nested, tuple_tree::specs::Loose::loose_slot_at, tuple_tree::specs::Reading::item_with))]
#[cycle(match_fields)]
fn match_field<'f, 'b>(
    fields: &'f [u8],
    values: &'b [u8],
    levels: u8,
) -> Option<(&'f [u8], &'b [u8])>
    ensures { Yields (λ x. (x.0.now, x.1.now)) result (behind_one levels fields.now values.now) }
{
    let (tag, after) = read_byte(fields)?;
    match tag {
        5 => match_nested(after, values, levels),
        0x10 => Some((after, pass_value(values)?)),
        0x11 => Some((after, pass_kind(Kind::Number, values)?)),
        0x12 => Some((after, pass_kind(Kind::Text, values)?)),
        0x13 => Some((after, pass_kind(Kind::Bytes, values)?)),
        0x14 => Some((after, pass_kind(Kind::Truth, values)?)),
        0x15 => Some((after, pass_kind(Kind::Tuple, values)?)),
        0x16 => Some((after, pass_kind(Kind::Wide, values)?)),
        _ => match_atom(tag, fields, after, values),
    }
}

#[tactic(auto, unfolding(crate::specs::Walks::behind_value))]
fn pass_value(bytes: &[u8]) -> Option<&[u8]>
    ensures { Yields (λ rest. rest.now) result (behind_value bytes.now) }
{
    skip_value(bytes, 7)
}

#[tactic(auto, unfolding(crate::specs::Walks::behind_kind))]
fn pass_kind(kind: Kind, bytes: &[u8]) -> Option<&[u8]>
    ensures { Yields (λ rest. rest.now) result (behind_kind kind bytes.now) }
{
    let _values = strip_behind(kind_tag(kind), &[], bytes)?;
    pass_value(bytes)
}

fn kind_tag(kind: Kind) -> u8
    ensures { result ≡ value_tag kind }
{
    match kind {
        Kind::Number => 1,
        Kind::Text => 2,
        Kind::Bytes => 3,
        Kind::Truth => 4,
        Kind::Tuple => 5,
        Kind::Wide => 6,
    }
}

// An actual field's bytes are those of the value that it matches, so kinds needn't be told apart.
#[tactic(auto, unfolding(crate::specs::Walks::behind_atom))]
fn match_atom<'f, 'b>(
    tag: u8,
    fields: &'f [u8],
    after: &'f [u8],
    values: &'b [u8],
) -> Option<(&'f [u8], &'b [u8])>
    requires { byte_at fields.now ≡ Some (tag, after.now) }
    ensures { Yields (λ x. (x.0.now, x.1.now)) result (behind_atom tag after.now values.now) }
{
    let Some(rest) = skip_atom(tag, after) else {
        return None;
    };
    if fields.len() < rest.len() {
        return None;
    }
    let (token, _) = fields.split_at(fields.len() - rest.len());
    match strip_front(token, values) {
        Some(behind) => Some((rest, behind)),
        None => None,
    }
}

#[cycle(match_fields)]
fn match_nested<'f, 'b>(
    fields: &'f [u8],
    values: &'b [u8],
    levels: u8,
) -> Option<(&'f [u8], &'b [u8])>
    ensures { Yields (λ x. (x.0.now, x.1.now)) result (behind_nested levels fields.now values.now) }
{
    if levels == 0 {
        return None;
    }
    let Some((count, nested)) = read_byte(fields) else {
        return None;
    };
    if count as usize > MAX_FIELDS {
        return None;
    }
    match strip_behind(5, &[count], values) {
        Some(rest) => match_fields(count, nested, rest, levels - 1),
        None => None,
    }
}
