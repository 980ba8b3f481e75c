//! Tuples: lists of values, kept as the bytes that spell the values.

ghost use Rattle.std.specs.Prelude.{◌≡◌, ◌+◌, ◌≤◌, ◌++◌, OnOk, OnErr, IfErr, IfOk, IsTrue, ◌↔◌, length, slice_get};
ghost use Rattle.tuple_tree.specs.Items.{none, leaf, inner, how_many, with_last, item_levels, levels_of, item_length};
ghost use Rattle.tuple_tree.specs.Items.{as_list, whole_length, item_has, has_leaf};
ghost use Rattle.tuple_tree.specs.Limits.{IsItem};
ghost use Rattle.tuple_tree.specs.Pushes.{JudgesTuple, AddsValue};
ghost use Rattle.tuple_tree.specs.Puts.{PutsText};
ghost use Rattle.tuple_tree.specs.Results.{Yields};
ghost use Rattle.tuple_tree.specs.Reading.{datum_at, items_at};
ghost use Rattle.tuple_tree.specs.Seen.{seen_datum, seen_value};
ghost use Rattle.tuple_tree.specs.Spelling.{datum_spelling, items_spelling, tuple_spelling};
ghost use Rattle.tuple_tree.specs.Values.{datum_length, is_wide, IsDatum, IsUtf8IfText, IsTuple};
ghost use Rattle.tuple_tree.specs.TupleView.{value_of};

use crate::atoms::{Atom, note_bytes};
use crate::judging::judge_tuple;
use crate::limits::{Extent, Refusal, Refused};
use crate::put::{put_atom, put_byte, put_bytes, put_nested};
use crate::reading::read_byte;
use crate::values::{AtomRef, ValueRef, Values};
use std::alloc::Allocator;
use std::marker::Model;
use terms::NoMemory;

/// A value of a tuple.
#[derive(Drop)]
pub enum Value<A: Allocator> {
    /// A value that is no tuple.
    Atom(Atom<A>),
    /// A nested tuple.
    Nested(Tuple<A>),
}

/// A list of values within the limits, in memory of the allocator `A`: one block, whatever is nested in it.
#[derive(Drop)]
pub struct Tuple<A: Allocator> {
    // The spellings of the values, without their count.
    values: Vec<u8, A>,
    count: u8,
    extent: Extent,
}

impl<A: Allocator> Model for Tuple<A> {
    ghost use Rattle.tuple_tree.specs.Values.{TupleTree};
    ghost use Rattle.tuple_tree.specs.ValuesCode.{tuple_code};
    ghost use Rattle.tuple_tree.specs.Reading.{datum_at};
    ghost use Rattle.tuple_tree.specs.Flat.{items_in, IsFlatTuple};

    ghost Value = { TupleTree };

    ghost coded = { tuple_code };

    ghost view = { λ a. items_in datum_at 7 a.count a.values.items };

    ghost invariant = { λ a. IsFlatTuple a.count a.values.items a.extent (items_in datum_at 7 a.count a.values.items) };
}

/// A value that was not added, and why.
pub type Pushed<A> = Refused<Value<A>>;

impl<A: Allocator> Value<A> {
    /// The levels of nested tuples in this value, 0 to 8. Constant time.
    pub fn depth(&self) -> u8
        ensures value { result ≡ item_levels (value_of self.now) }
        ensures bound { result ≤ 8 }
        ensures valid { IsItem IsDatum (value_of self.now) }
    {
        match self {
            Value::Atom(atom) => {
                atom.note_valid();
                0
            }
            Value::Nested(tuple) => tuple.depth(),
        }
    }

    /// The length of the encoding, in bytes. Constant time.
    pub fn encoded_len(&self) -> usize
        ensures { result ≡ item_length datum_length (value_of self.now) }
    {
        match self {
            Value::Atom(atom) => atom.encoded_len(),
            Value::Nested(tuple) => 1 + tuple.encoded_len(),
        }
    }

    /// Whether there is a wide number in this value. Constant time.
    pub fn has_wide(&self) -> bool
        ensures { result ≡ item_has is_wide (value_of self.now) }
    {
        match self {
            Value::Atom(atom) => atom.is_wide(),
            Value::Nested(tuple) => tuple.has_wide(),
        }
    }
}

impl<A: Allocator> Tuple<A> {
    /// The empty tuple. Takes no memory.
    pub fn new_in(alloc: A) -> Tuple<A>
        ensures { result ≡ none }
    {
        Tuple {
            values: Vec::new(alloc),
            count: 0,
            extent: Extent::EMPTY,
        }
    }

    /// How many values there are, 0 to 32.
    pub fn len(&self) -> usize
        ensures value { result ≡ how_many self.now }
        ensures bound { result ≤ 32 }
    {
        self.count as usize
    }

    /// Whether there is no value.
    pub fn is_empty(&self) -> bool
        ensures { IsTrue result ↔ (how_many self.now ≡ 0) }
    {
        self.len() == 0
    }

    /// How many levels there are, 1 to 8: a flat tuple has one. Constant time.
    pub fn depth(&self) -> u8
        ensures value { result ≡ levels_of self.now }
        ensures valid { IsTuple self.now }
    {
        self.extent.depth
    }

    /// The length of the encoding in bytes, 1 to 1,024. Constant time.
    pub fn encoded_len(&self) -> usize
        ensures value { result ≡ whole_length datum_length self.now }
        ensures valid { IsTuple self.now }
    {
        self.extent.encoded_len as usize
    }

    /// Whether there is a wide number in it, at any level. Constant time.
    pub fn has_wide(&self) -> bool
        ensures { result ≡ has_leaf is_wide self.now }
    {
        self.extent.has_wide
    }

    /// The values in order, where they lie.
    pub fn values(&self) -> Values<'_>
        ensures value { result ≡ self.now }
        ensures valid { IsTuple self.now }
    {
        Values {
            bytes: &self.values,
            count: self.count,
            levels: 7,
        }
    }

    /// The value at this place, from 0 on, where it lies, or `None` if there are no more than so many. Takes no memory.
    // What stands before it is passed value by value: a tuple has at most 32.
    pub fn get(&self, i: usize) -> Option<ValueRef<'_>>
        ensures value { Yields seen_value result (slice_get (as_list self.now) i) }
        ensures valid { IsTuple self.now }
    {
        let mut values = self.values();
        for _passed in 0..i {
            values.next()?;
        }
        values.next()
    }

    /// The spellings of the values, one after another.
    pub fn bytes(&self) -> &[u8]
        ensures value { result.now ≡ items_spelling datum_spelling self.now }
        ensures valid { IsTuple self.now }
    {
        &self.values
    }

    /// The tuple that the front of the bytes spells, and the bytes after it: a test, and then a copy.
    pub fn read_in<'b>(alloc: A, bytes: &'b [u8]) -> Result<Option<(Tuple<A>, &'b [u8])>, NoMemory>
        requires { length bytes.now ≤ 1024 }
        ensures { IfOk result (λ read. Yields (λ x. (x.0, x.1.now)) read (items_at datum_at 7 bytes.now)) }
    {
        note_bytes(bytes);
        let Some((below, has_wide, rest)) = judge_tuple(bytes, 7) else {
            return Ok(None);
        };
        let Some((count, values)) = read_byte(bytes) else {
            return Ok(None);
        };
        let (spelled, _) = values.split_at(values.len() - rest.len());
        let values = Vec::from_slice(alloc, spelled)?;
        let extent = Extent {
            depth: 1 + below,
            encoded_len: 1 + spelled.len() as u16,
            has_wide,
        };
        let tuple = Tuple {
            values,
            count,
            extent,
        };
        Ok(Some((tuple, rest)))
    }

    /// The tuple as a value of another one.
    pub fn into_value(self) -> Value<A>
        ensures { value_of result ≡ inner self }
    {
        Value::Nested(self)
    }

    /// Whether the two tuples are equal, wherever they lie.
    pub fn same<B: Allocator>(&self, other: &Tuple<B>) -> bool
        ensures { IsTrue result ↔ (self.now ≡ other.now) }
    {
        self.count == other.count && self.values.as_slice() == other.values.as_slice()
    }

    /// An equal tuple under another allocator.
    pub fn copy_in<B: Allocator>(&self, alloc: B) -> Result<Tuple<B>, NoMemory>
        ensures { IfOk result (λ t. t ≡ self.now) }
    {
        let values = Vec::from_slice(alloc, self.values.as_slice())?;
        Ok(Tuple {
            values,
            count: self.count,
            extent: self.extent,
        })
    }

    /// Adds a value at the end. A refusal hands the value back and leaves the tuple as it was. If the value would
    /// pass several limits, the refusal names the first in the order of [`Refusal`].
    // Where the kind of the value is known, most of the judging falls away.
    #[inline(always)]
    pub fn push(&mut self, value: Value<A>) -> Result<(), Pushed<A>>
        ensures ok { OnOk result (self.new ≡ with_last self.old (value_of value)) }
        ensures err { OnErr result (self.new ≡ self.old) }
        ensures returned { IfErr result (λ e. e.value ≡ value) }
        ensures refusal { JudgesTuple result self.new (with_last self.old (value_of value)) }
    {
        match self.add(&value) {
            Ok(()) => Ok(()),
            Err(refusal) => Err(Refused { refusal, value }),
        }
    }

    // Adds a value at the end. A refusal leaves the tuple as it was.
    // Inlined, so that one arm is left where the kind is known.
    #[inline(always)]
    fn add(&mut self, value: &Value<A>) -> Result<(), Refusal>
        ensures ok { OnOk result (self.new ≡ with_last self.old (value_of value.now)) }
        ensures err { OnErr result (self.new ≡ self.old) }
        ensures refusal { AddsValue result self.new (with_last self.old (value_of value.now)) }
    {
        match value {
            Value::Atom(atom) => self.push_atom(atom.seen()),
            Value::Nested(tuple) => self.add_nested(tuple),
        }
    }

    /// Adds a value from where it lies, as [`Tuple::push`] does.
    // Where the kind of the value is known, most of the judging falls away.
    #[inline(always)]
    pub fn push_atom(&mut self, atom: AtomRef<'_>) -> Result<(), Refusal>
        requires { IsUtf8IfText (seen_datum atom) }
        ensures ok { OnOk result (self.new ≡ with_last self.old (leaf (seen_datum atom.entry))) }
        ensures err { OnErr result (self.new ≡ self.old) }
        ensures refusal { AddsValue result self.new (with_last self.old (leaf (seen_datum atom.entry))) }
    {
        atom.note_valid();
        let len = atom.encoded_len();
        let extent = self
            .extent
            .with_room(self.count, 0, len, atom.is_wide(), &mut self.values)?;
        put_atom(&atom, &mut self.values);
        self.count += 1;
        self.extent = extent;
        Ok(())
    }

    fn add_nested(&mut self, tuple: &Tuple<A>) -> Result<(), Refusal>
        ensures ok { OnOk result (self.new ≡ with_last self.old (inner tuple.now)) }
        ensures err { OnErr result (self.new ≡ self.old) }
        ensures refusal { AddsValue result self.new (with_last self.old (inner tuple.now)) }
    {
        let len = 1 + tuple.encoded_len();
        let extent = self.extent.with_room(
            self.count,
            tuple.depth(),
            len,
            tuple.has_wide(),
            &mut self.values,
        )?;
        put_nested(tuple.len() as u8, tuple.bytes(), &mut self.values);
        self.count += 1;
        self.extent = extent;
        Ok(())
    }
}

/// Appends the spelling of the tuple. After an `Err` a part of it may follow the bytes.
pub fn put_tuple<A: Allocator, B: Allocator>(
    tuple: &Tuple<A>,
    out: &mut Vec<u8, B>,
) -> Result<(), NoMemory>
    ensures { PutsText (tuple_spelling tuple.now) out.old.items out.new.items result }
{
    put_byte(tuple.count, out)?;
    put_bytes(tuple.values.as_slice(), out)
}
