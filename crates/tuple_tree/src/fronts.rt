//! How many bytes of a template's spelling stand before its first open field, at any level. Each tuple that the
//! template matches begins with them.

ghost use Rattle.std.specs.Prelude.{◌≡◌, ◌+◌, ◌*◌, ◌≤◌, ◌==◌, if◌then◌else◌, length};
ghost use Rattle.tuple_tree.specs.Flat.{items_in, HasItems};
ghost use Rattle.tuple_tree.specs.Fronts.{is_open, field_front, front_of};
ghost use Rattle.tuple_tree.specs.Items.{item_length, length_in, item_has, has_leaf};
ghost use Rattle.tuple_tree.specs.Loose.{loose_slot_at};
ghost use Rattle.tuple_tree.specs.Seen.{seen_field};
ghost use Rattle.tuple_tree.specs.Values.{slot_length};

use crate::fields::{FieldRef, Fields};
use crate::limits::Extent;

/// How many there are after one more field, which has `more` before its own first open one. A template without an open
/// field has as many as its spelling, apart from the count.
#[inline]
pub fn longer_front(fixed: u16, extent: Extent, more: usize) -> u16
    requires within { extent.encoded_len ≤ 1024 }
    requires short { more ≤ 1024 }
    ensures { result ≡ (if extent.encoded_len == 1 + fixed then fixed + more else fixed) }
{
    if extent.encoded_len as usize == 1 + fixed as usize {
        (fixed as usize + more) as u16
    } else {
        fixed
    }
}

/// How many there are among these bytes, which spell so many fields.
pub fn spelled_front(count: u8, bytes: &[u8]) -> u16
    requires items { HasItems loose_slot_at 7 count bytes.now }
    requires short { length_in slot_length (items_in loose_slot_at 7 count bytes.now) ≤ 1024 }
    ensures { result ≡ length (front_of (items_in loose_slot_at 7 count bytes.now)) }
{
    let fields = Fields {
        bytes,
        count,
        levels: 7,
    };
    front_len(fields).0 as u16
}

// How many there are in the fields that are left, and whether there is an open one.
#[cycle(front_len)]
fn front_len(fields: Fields<'_>) -> (usize, bool)
    requires { length_in slot_length fields ≤ 1024 }
    ensures len { result.0 ≡ length (front_of fields.entry) }
    ensures open { result.1 ≡ has_leaf is_open fields.entry }
    ensures bound { result.0 ≤ length_in slot_length fields.entry }
{
    let mut left = fields;
    let mut len = 0;
    while let Some(field) = left.next() {
        let (more, is_open) = field_front_len(field);
        len += more;
        if is_open {
            return (len, true);
        }
    }
    (len, false)
}

#[cycle(front_len)]
fn field_front_len(field: FieldRef<'_>) -> (usize, bool)
    requires { item_length slot_length (seen_field field) ≤ 1024 }
    ensures len { result.0 ≡ length (field_front (seen_field field.entry)) }
    ensures open { result.1 ≡ item_has is_open (seen_field field.entry) }
    ensures bound { result.0 ≤ item_length slot_length (seen_field field.entry) }
{
    match field {
        FieldRef::Actual(atom) => (atom.encoded_len(), false),
        FieldRef::Any | FieldRef::Formal(_) => (0, true),
        FieldRef::Nested(nested) => {
            let (len, is_open) = front_len(nested);
            (2 + len, is_open)
        }
    }
}
