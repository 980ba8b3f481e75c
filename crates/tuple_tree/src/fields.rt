//! The fields of a template, where they lie in its bytes.

ghost use Rattle.std.specs.Prelude.{◌≡◌, IfSome, IfNone};
ghost use Rattle.tuple_tree.specs.Items.{none, item};
ghost use Rattle.tuple_tree.specs.Results.{Yields};
ghost use Rattle.tuple_tree.specs.Reading.{inner_at, item_at};
ghost use Rattle.tuple_tree.specs.Loose.{loose_slot_at};
ghost use Rattle.tuple_tree.specs.Seen.{seen_field};

use crate::atoms::Kind;
use crate::reading::read_byte;
use crate::skip::skip_fields;
use crate::values::{AtomRef, read_atom};
use std::marker::Model;

/// A field where it lies.
#[derive(Drop)]
pub enum FieldRef<'b> {
    Actual(AtomRef<'b>),
    Any,
    Formal(Kind),
    Nested(Fields<'b>),
}

/// The fields of a template that are left to see.
#[derive(Drop)]
pub struct Fields<'b> {
    pub(crate) bytes: &'b [u8],
    pub(crate) count: u8,
    // At most so many levels are in each.
    pub(crate) levels: u8,
}

impl<'b> Model for Fields<'b> {
    ghost use Rattle.tuple_tree.specs.Values.{TemplateTree};
    ghost use Rattle.tuple_tree.specs.ValuesCode.{template_code};
    ghost use Rattle.tuple_tree.specs.Loose.{loose_slot_at};
    ghost use Rattle.tuple_tree.specs.Flat.{items_in, HasItems};

    ghost Value = { TemplateTree };

    ghost coded = { template_code };

    ghost view = { λ a. items_in loose_slot_at a.levels a.count a.bytes.now };

    ghost invariant = { λ a. HasItems loose_slot_at a.levels a.count a.bytes.now };
}

impl<'b> Fields<'b> {
    /// The next field.
    pub fn next(&mut self) -> Option<FieldRef<'b>>
        ensures some { IfSome result (λ field. self.old ≡ item (seen_field field) self.new) }
        ensures none { IfNone result (self.old ≡ none) }
        ensures kept { IfNone result (self.new ≡ self.old) }
    {
        if self.count == 0 {
            return None;
        }
        match read_field(self.bytes, self.levels) {
            Some((field, rest)) => {
                self.count -= 1;
                self.bytes = rest;
                Some(field)
            }
            None => None,
        }
    }
}

// The field at the front, with at most so many levels in it.
#[tactic(auto, unfolding(crate::specs::Reading::item_with, crate::specs::Loose::loose_slot_at))]
fn read_field<'b>(bytes: &'b [u8], levels: u8) -> Option<(FieldRef<'b>, &'b [u8])>
    ensures { Yields (λ x. (seen_field x.0, x.1.now)) result (item_at loose_slot_at levels bytes.now) }
{
    let (tag, rest) = read_byte(bytes)?;
    match tag {
        5 => read_nested(rest, levels),
        0x10 => Some((FieldRef::Any, rest)),
        0x11 => Some((FieldRef::Formal(Kind::Number), rest)),
        0x12 => Some((FieldRef::Formal(Kind::Text), rest)),
        0x13 => Some((FieldRef::Formal(Kind::Bytes), rest)),
        0x14 => Some((FieldRef::Formal(Kind::Truth), rest)),
        0x15 => Some((FieldRef::Formal(Kind::Tuple), rest)),
        0x16 => Some((FieldRef::Formal(Kind::Wide), rest)),
        _ => match read_atom(tag, rest) {
            Some((atom, rest)) => Some((FieldRef::Actual(atom), rest)),
            None => None,
        },
    }
}

#[tactic(auto, unfolding(crate::specs::Reading::inner_at, crate::specs::Reading::items_with, crate::specs::Reading::nothing))]
fn read_nested<'b>(bytes: &'b [u8], levels: u8) -> Option<(FieldRef<'b>, &'b [u8])>
    ensures { Yields (λ x. (seen_field x.0, x.1.now)) result (inner_at loose_slot_at levels bytes.now) }
{
    if levels == 0 {
        return None;
    }
    let after = skip_fields(bytes, levels - 1)?;
    let (count, fields) = read_byte(bytes)?;
    let nested = Fields {
        bytes: fields,
        count,
        levels: levels - 1,
    };
    Some((FieldRef::Nested(nested), after))
}
