//! The values of a tuple, where they lie in its bytes.

ghost use Rattle.std.specs.Prelude.{◌≡◌, ◌+◌, IfSome, IfNone};
ghost use Rattle.tuple_tree.specs.Items.{none, item};
ghost use Rattle.tuple_tree.specs.Values.{kind_of, datum_length, is_wide, IsDatum, IsUtf8IfText};
ghost use Rattle.tuple_tree.specs.Results.{Yields};
ghost use Rattle.tuple_tree.specs.Reading.{inner_at, item_at};
ghost use Rattle.tuple_tree.specs.Loose.{loose_at};
ghost use Rattle.tuple_tree.specs.Seen.{seen_datum, seen_value};

use crate::atoms::{Kind, note_bytes};
use crate::reading::{read_byte, read_flag, read_number, read_string, read_wide};
use crate::skip::skip_values;
use std::marker::Model;

/// A value that is no tuple, where it lies.
#[derive(Clone, Copy)]
pub enum AtomRef<'b> {
    Number(i64),
    /// The bytes of a text.
    Text(&'b [u8]),
    Bytes(&'b [u8]),
    Truth(bool),
    Wide(i128),
}

impl<'b> AtomRef<'b> {
    /// The length of the encoding, in bytes. Constant time.
    #[inline]
    pub fn encoded_len(&self) -> usize
        ensures { result ≡ datum_length (seen_datum self.now) }
    {
        match self {
            AtomRef::Number(_) => 9,
            AtomRef::Text(text) => 3 + text.len(),
            AtomRef::Bytes(bytes) => 3 + bytes.len(),
            AtomRef::Truth(_) => 2,
            AtomRef::Wide(_) => 17,
        }
    }

    /// Whether the value is a wide number.
    #[inline]
    pub fn is_wide(&self) -> bool
        ensures { result ≡ is_wide (seen_datum self.now) }
    {
        matches!(self, AtomRef::Wide(_))
    }

    // Each value that the program sees is one of its kind, but for the characters of a text.
    pub(crate) fn note_valid(&self)
        requires { IsUtf8IfText (seen_datum self.now) }
        ensures { IsDatum (seen_datum self.now) }
    {
        match self {
            AtomRef::Number(number) => {
                let _number = *number;
            }
            AtomRef::Text(_) | AtomRef::Truth(_) => {}
            AtomRef::Bytes(bytes) => note_bytes(bytes),
            AtomRef::Wide(number) => {
                let _number = *number;
            }
        }
    }
}

/// A value where it lies.
#[derive(Drop)]
pub enum ValueRef<'b> {
    Atom(AtomRef<'b>),
    Nested(Values<'b>),
}

impl<'b> ValueRef<'b> {
    /// The kind of this value.
    pub fn kind(&self) -> Kind
        ensures { result ≡ kind_of (seen_value self.now) }
    {
        match self {
            ValueRef::Atom(AtomRef::Number(_)) => Kind::Number,
            ValueRef::Atom(AtomRef::Text(_)) => Kind::Text,
            ValueRef::Atom(AtomRef::Bytes(_)) => Kind::Bytes,
            ValueRef::Atom(AtomRef::Truth(_)) => Kind::Truth,
            ValueRef::Atom(AtomRef::Wide(_)) => Kind::Wide,
            ValueRef::Nested(_) => Kind::Tuple,
        }
    }
}

/// The values of a tuple that are left to see.
#[derive(Drop)]
pub struct Values<'b> {
    pub(crate) bytes: &'b [u8],
    pub(crate) count: u8,
    // At most so many levels are in each.
    pub(crate) levels: u8,
}

impl<'b> Model for Values<'b> {
    ghost use Rattle.tuple_tree.specs.Values.{TupleTree};
    ghost use Rattle.tuple_tree.specs.ValuesCode.{tuple_code};
    ghost use Rattle.tuple_tree.specs.Loose.{loose_at};
    ghost use Rattle.tuple_tree.specs.Flat.{items_in, HasItems};

    ghost Value = { TupleTree };

    ghost coded = { tuple_code };

    ghost view = { λ a. items_in loose_at a.levels a.count a.bytes.now };

    ghost invariant = { λ a. HasItems loose_at a.levels a.count a.bytes.now };
}

impl<'b> Values<'b> {
    /// The next value.
    pub fn next(&mut self) -> Option<ValueRef<'b>>
        ensures some { IfSome result (λ value. self.old ≡ item (seen_value value) self.new) }
        ensures none { IfNone result (self.old ≡ none) }
        ensures kept { IfNone result (self.new ≡ self.old) }
    {
        if self.count == 0 {
            return None;
        }
        match read_value(self.bytes, self.levels) {
            Some((value, rest)) => {
                self.count -= 1;
                self.bytes = rest;
                Some(value)
            }
            None => None,
        }
    }
}

// The value at the front, with at most so many levels in it.
#[tactic(auto, unfolding(crate::specs::Reading::item_with))]
fn read_value<'b>(bytes: &'b [u8], levels: u8) -> Option<(ValueRef<'b>, &'b [u8])>
    ensures { Yields (λ x. (seen_value x.0, x.1.now)) result (item_at loose_at levels bytes.now) }
{
    let (tag, rest) = read_byte(bytes)?;
    if tag == 5 {
        return read_nested(rest, levels);
    }
    match read_atom(tag, rest) {
        Some((atom, rest)) => Some((ValueRef::Atom(atom), rest)),
        None => None,
    }
}

/// The value after a tag.
#[tactic(auto, unfolding(crate::specs::Loose::loose_at))]
pub fn read_atom<'b>(tag: u8, bytes: &'b [u8]) -> Option<(AtomRef<'b>, &'b [u8])>
    ensures { Yields (λ x. (seen_datum x.0, x.1.now)) result (loose_at tag bytes.now) }
{
    match tag {
        1 => match read_number(bytes) {
            Some((number, rest)) => Some((AtomRef::Number(number), rest)),
            None => None,
        },
        2 => match read_string(bytes) {
            Some((text, rest)) => Some((AtomRef::Text(text), rest)),
            None => None,
        },
        3 => match read_string(bytes) {
            Some((string, rest)) => Some((AtomRef::Bytes(string), rest)),
            None => None,
        },
        4 => match read_flag(bytes) {
            Some((truth, rest)) => Some((AtomRef::Truth(truth), rest)),
            None => None,
        },
        6 => match read_wide(bytes) {
            Some((number, rest)) => Some((AtomRef::Wide(number), rest)),
            None => None,
        },
        _ => None,
    }
}

#[tactic(auto, unfolding(crate::specs::Reading::inner_at, crate::specs::Reading::items_with, crate::specs::Reading::nothing))]
fn read_nested<'b>(bytes: &'b [u8], levels: u8) -> Option<(ValueRef<'b>, &'b [u8])>
    ensures { Yields (λ x. (seen_value x.0, x.1.now)) result (inner_at loose_at levels bytes.now) }
{
    if levels == 0 {
        return None;
    }
    let after = skip_values(bytes, levels - 1)?;
    let (count, values) = read_byte(bytes)?;
    let nested = Values {
        bytes: values,
        count,
        levels: levels - 1,
    };
    Some((ValueRef::Nested(nested), after))
}
