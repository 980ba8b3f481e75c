//! Values that are no tuples.

ghost use Rattle.std.specs.Prelude.{◌≡◌, ◌+◌};
ghost use Rattle.tuple_tree.specs.Values.{datum_length, is_wide, IsDatum, AreBytes};
ghost use Rattle.tuple_tree.specs.AtomView.{datum_of};
ghost use Rattle.tuple_tree.specs.Seen.{seen_datum};

use crate::values::AtomRef;
use std::alloc::Allocator;
use std::string::String;

/// The kinds of values.
#[derive(Clone, Copy, Debug, PartialEq, Eq)]
pub enum Kind {
    Number,
    Text,
    Bytes,
    Truth,
    Tuple,
    Wide,
}

/// A value that is no tuple.
#[derive(Drop)]
pub enum Atom<A: Allocator> {
    /// A signed number of 64 bits.
    Number(i64),
    /// A text, in UTF-8.
    Text(String<A>),
    /// A byte string.
    Bytes(Vec<u8, A>),
    /// A truth value.
    Truth(bool),
    /// A signed number of 128 bits, which no number of 64 bits equals.
    Wide(i128),
}

/// Tells a proof that each item of a slice of bytes is a byte.
pub fn note_bytes(bytes: &[u8])
    ensures { AreBytes bytes.now }
{
    let _first = bytes.first();
}

impl<A: Allocator> Atom<A> {
    /// The value where it lies.
    #[inline]
    pub fn seen(&self) -> AtomRef<'_>
        ensures value { seen_datum result ≡ datum_of self.now }
        ensures valid { IsDatum (datum_of self.now) }
    {
        match self {
            Atom::Number(number) => AtomRef::Number(*number),
            Atom::Text(text) => AtomRef::Text(text.as_str().as_bytes()),
            Atom::Bytes(bytes) => {
                note_bytes(bytes.as_slice());
                AtomRef::Bytes(bytes.as_slice())
            }
            Atom::Truth(truth) => AtomRef::Truth(*truth),
            Atom::Wide(number) => AtomRef::Wide(*number),
        }
    }

    /// The length of the encoding, in bytes. Constant time.
    pub fn encoded_len(&self) -> usize
        ensures { result ≡ datum_length (datum_of self.now) }
    {
        self.seen().encoded_len()
    }

    /// Whether the value is a wide number.
    pub fn is_wide(&self) -> bool
        ensures { result ≡ is_wide (datum_of self.now) }
    {
        self.seen().is_wide()
    }

    // Each value that the program holds is one of its kind.
    pub(crate) fn note_valid(&self)
        ensures { IsDatum (datum_of self.now) }
    {
        let _seen = self.seen();
    }
}
