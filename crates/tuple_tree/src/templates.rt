//! Templates: lists of fields, kept as the bytes that spell the fields.

ghost use Rattle.std.specs.Prelude.{◌≡◌, ◌+◌, ◌≤◌, ◌++◌, OnOk, OnErr, IfErr, IfOk, IsTrue, ◌↔◌, false, length, slice_get};
ghost use Rattle.tuple_tree.specs.Items.{none, leaf, inner, how_many, with_last, item_levels, levels_of, item_length};
ghost use Rattle.tuple_tree.specs.Items.{as_list, whole_length, item_has, has_leaf};
ghost use Rattle.tuple_tree.specs.Limits.{IsItem};
ghost use Rattle.tuple_tree.specs.Pushes.{JudgesTemplate, AddsField};
ghost use Rattle.tuple_tree.specs.Puts.{PutsText};
ghost use Rattle.tuple_tree.specs.Fronts.{is_open, front_of};
ghost use Rattle.tuple_tree.specs.Results.{Yields};
ghost use Rattle.tuple_tree.specs.Reading.{slot_at, items_at};
ghost use Rattle.tuple_tree.specs.Seen.{seen_datum, seen_field, open_slot};
ghost use Rattle.tuple_tree.specs.Spelling.{slot_spelling, items_spelling, template_spelling};
ghost use Rattle.tuple_tree.specs.Values.{actual, slot_length, is_wide_slot, IsSlot, IsUtf8IfText, IsTemplate};
ghost use Rattle.tuple_tree.specs.TemplateView.{field_of};

use crate::atoms::{Atom, Kind, note_bytes};
use crate::fields::{FieldRef, Fields};
use crate::fronts::{longer_front, spelled_front};
use crate::judging::judge_template;
use crate::limits::{Extent, Refusal, Refused};
use crate::put::{open_tag, put_atom, put_byte, put_bytes, put_nested};
use crate::reading::read_byte;
use crate::values::AtomRef;
use std::alloc::Allocator;
use std::marker::Model;
use terms::NoMemory;

/// A field of a template.
#[derive(Drop)]
pub enum Field<A: Allocator> {
    /// An actual: an equal value matches.
    Actual(Atom<A>),
    /// Each value matches.
    Any,
    /// A formal: each value of the kind matches.
    Formal(Kind),
    /// A nested template: a nested tuple matches if this template matches it.
    Nested(Template<A>),
}

/// A list of fields within the limits, in memory of the allocator `A`: one block, whatever is nested in it.
#[derive(Drop)]
pub struct Template<A: Allocator> {
    // The spellings of the fields, without their count.
    fields: Vec<u8, A>,
    count: u8,
    extent: Extent,
    // How many of the bytes stand before the first open field, at any level.
    fixed: u16,
}

impl<A: Allocator> Model for Template<A> {
    ghost use Rattle.tuple_tree.specs.Values.{TemplateTree};
    ghost use Rattle.tuple_tree.specs.ValuesCode.{template_code};
    ghost use Rattle.tuple_tree.specs.Reading.{slot_at};
    ghost use Rattle.tuple_tree.specs.Flat.{items_in, IsFlatTemplate};

    ghost Value = { TemplateTree };

    ghost coded = { template_code };

    ghost view = { λ a. items_in slot_at 7 a.count a.fields.items };

    ghost invariant = { λ a.
        IsFlatTemplate a.count a.fields.items a.extent a.fixed (items_in slot_at 7 a.count a.fields.items) };
}

/// A field that was not added, and why.
pub type PushedField<A> = Refused<Field<A>>;

impl<A: Allocator> Field<A> {
    /// The levels of nested templates in this field, 0 to 8. Constant time.
    pub fn depth(&self) -> u8
        ensures value { result ≡ item_levels (field_of self.now) }
        ensures bound { result ≤ 8 }
        ensures valid { IsItem IsSlot (field_of self.now) }
    {
        match self {
            Field::Actual(atom) => {
                atom.note_valid();
                0
            }
            Field::Any | Field::Formal(_) => 0,
            Field::Nested(template) => template.depth(),
        }
    }

    /// The length of the encoding, in bytes. Constant time.
    pub fn encoded_len(&self) -> usize
        ensures { result ≡ item_length slot_length (field_of self.now) }
    {
        match self {
            Field::Actual(atom) => atom.encoded_len(),
            Field::Any | Field::Formal(_) => 1,
            Field::Nested(template) => 1 + template.encoded_len(),
        }
    }

    /// Whether this field has a wide number or asks for one. Constant time.
    pub fn has_wide(&self) -> bool
        ensures { result ≡ item_has is_wide_slot (field_of self.now) }
    {
        match self {
            Field::Actual(atom) => atom.is_wide(),
            Field::Any => false,
            Field::Formal(kind) => matches!(*kind, Kind::Wide),
            Field::Nested(template) => template.has_wide(),
        }
    }
}

impl<A: Allocator> Template<A> {
    /// The empty template. Takes no memory.
    pub fn new_in(alloc: A) -> Template<A>
        ensures { result ≡ none }
    {
        Template {
            fields: Vec::new(alloc),
            count: 0,
            extent: Extent::EMPTY,
            fixed: 0,
        }
    }

    /// How many fields there are, 0 to 32.
    pub fn len(&self) -> usize
        ensures value { result ≡ how_many self.now }
        ensures bound { result ≤ 32 }
    {
        self.count as usize
    }

    /// Whether there is no field.
    pub fn is_empty(&self) -> bool
        ensures { IsTrue result ↔ (how_many self.now ≡ 0) }
    {
        self.len() == 0
    }

    /// How many levels there are, 1 to 8: a flat template has one. Constant time.
    pub fn depth(&self) -> u8
        ensures value { result ≡ levels_of self.now }
        ensures valid { IsTemplate self.now }
    {
        self.extent.depth
    }

    /// The length of the encoding in bytes, 1 to 1,024. Constant time.
    pub fn encoded_len(&self) -> usize
        ensures value { result ≡ whole_length slot_length self.now }
        ensures valid { IsTemplate self.now }
    {
        self.extent.encoded_len as usize
    }

    /// Whether some field has a wide number or asks for one, at any level. Constant time.
    pub fn has_wide(&self) -> bool
        ensures { result ≡ has_leaf is_wide_slot self.now }
    {
        self.extent.has_wide
    }

    /// The fields in order, where they lie.
    pub fn fields(&self) -> Fields<'_>
        ensures value { result ≡ self.now }
        ensures valid { IsTemplate self.now }
    {
        Fields {
            bytes: &self.fields,
            count: self.count,
            levels: 7,
        }
    }

    /// The field at this place, from 0 on, where it lies, or `None` if there are no more than so many. Takes no memory.
    // What stands before it is passed field by field: a template has at most 32.
    pub fn get(&self, i: usize) -> Option<FieldRef<'_>>
        ensures value { Yields seen_field result (slice_get (as_list self.now) i) }
        ensures valid { IsTemplate self.now }
    {
        let mut fields = self.fields();
        for _passed in 0..i {
            fields.next()?;
        }
        fields.next()
    }

    /// The spellings of the fields, one after another.
    pub fn bytes(&self) -> &[u8]
        ensures value { result.now ≡ items_spelling slot_spelling self.now }
        ensures valid { IsTemplate self.now }
    {
        &self.fields
    }

    /// The bytes of these that stand before the first open field, at any level: each tuple that matches begins with
    /// them.
    pub fn fixed_bytes(&self) -> &[u8]
        ensures value { result.now ≡ front_of self.now }
        ensures valid { IsTemplate self.now }
    {
        self.fields.split_at(self.fixed as usize).0
    }

    /// Whether no field is open, at any level. Constant time.
    pub fn is_fixed(&self) -> bool
        ensures { IsTrue result ↔ (has_leaf is_open self.now ≡ false) }
    {
        self.encoded_len() == 1 + self.fixed as usize
    }

    /// The template that the front of the bytes spells, and the bytes after it: a test, and then a copy.
    pub fn read_in<'b>(
        alloc: A,
        bytes: &'b [u8],
    ) -> Result<Option<(Template<A>, &'b [u8])>, NoMemory>
        requires { length bytes.now ≤ 1024 }
        ensures { IfOk result (λ read. Yields (λ x. (x.0, x.1.now)) read (items_at slot_at 7 bytes.now)) }
    {
        note_bytes(bytes);
        let Some((below, has_wide, rest)) = judge_template(bytes, 7) else {
            return Ok(None);
        };
        let Some((count, fields)) = read_byte(bytes) else {
            return Ok(None);
        };
        let (spelled, _) = fields.split_at(fields.len() - rest.len());
        let fixed = spelled_front(count, spelled);
        let fields = Vec::from_slice(alloc, spelled)?;
        let extent = Extent {
            depth: 1 + below,
            encoded_len: 1 + spelled.len() as u16,
            has_wide,
        };
        let template = Template {
            fields,
            count,
            extent,
            fixed,
        };
        Ok(Some((template, rest)))
    }

    /// The template as a field of another one.
    pub fn into_field(self) -> Field<A>
        ensures { field_of result ≡ inner self }
    {
        Field::Nested(self)
    }

    /// Whether the two templates are equal, wherever they lie.
    pub fn same<B: Allocator>(&self, other: &Template<B>) -> bool
        ensures { IsTrue result ↔ (self.now ≡ other.now) }
    {
        self.count == other.count && self.fields.as_slice() == other.fields.as_slice()
    }

    /// An equal template under another allocator.
    pub fn copy_in<B: Allocator>(&self, alloc: B) -> Result<Template<B>, NoMemory>
        ensures { IfOk result (λ t. t ≡ self.now) }
    {
        let fields = Vec::from_slice(alloc, self.fields.as_slice())?;
        Ok(Template {
            fields,
            count: self.count,
            extent: self.extent,
            fixed: self.fixed,
        })
    }

    /// Adds a field at the end. A refusal hands the field back and leaves the template as it was. If the field would
    /// pass several limits, the refusal names the first in the order of [`Refusal`].
    // Where the kind of the field is known, most of the judging falls away.
    #[inline(always)]
    pub fn push(&mut self, field: Field<A>) -> Result<(), PushedField<A>>
        ensures ok { OnOk result (self.new ≡ with_last self.old (field_of field)) }
        ensures err { OnErr result (self.new ≡ self.old) }
        ensures returned { IfErr result (λ e. e.value ≡ field) }
        ensures refusal { JudgesTemplate result self.new (with_last self.old (field_of field)) }
    {
        match self.add(&field) {
            Ok(()) => Ok(()),
            Err(refusal) => Err(Refused {
                refusal,
                value: field,
            }),
        }
    }

    // Adds a field at the end. A refusal leaves the template as it was.
    // Inlined, so that one arm is left where the kind is known.
    #[inline(always)]
    fn add(&mut self, field: &Field<A>) -> Result<(), Refusal>
        ensures ok { OnOk result (self.new ≡ with_last self.old (field_of field.now)) }
        ensures err { OnErr result (self.new ≡ self.old) }
        ensures refusal { AddsField result self.new (with_last self.old (field_of field.now)) }
    {
        match field {
            Field::Actual(atom) => self.push_atom(atom.seen()),
            Field::Any => self.push_open(None),
            Field::Formal(kind) => self.push_open(Some(*kind)),
            Field::Nested(template) => self.add_nested(template),
        }
    }

    /// Adds an actual field from where it lies, as [`Template::push`] does.
    // Where the kind of the value is known, most of the judging falls away.
    #[inline(always)]
    pub fn push_atom(&mut self, atom: AtomRef<'_>) -> Result<(), Refusal>
        requires { IsUtf8IfText (seen_datum atom) }
        ensures ok { OnOk result (self.new ≡ with_last self.old (leaf (actual (seen_datum atom.entry)))) }
        ensures err { OnErr result (self.new ≡ self.old) }
        ensures refusal { AddsField result self.new (with_last self.old (leaf (actual (seen_datum atom.entry)))) }
    {
        atom.note_valid();
        let len = atom.encoded_len();
        let extent = self
            .extent
            .with_room(self.count, 0, len, atom.is_wide(), &mut self.fields)?;
        let fixed = longer_front(self.fixed, self.extent, len);
        put_atom(&atom, &mut self.fields);
        self.count += 1;
        self.fixed = fixed;
        self.extent = extent;
        Ok(())
    }

    /// Adds the formal of a kind, or without one a field that each value matches, as [`Template::push`] does.
    // Its spelling is one byte, and the front never reaches beyond it.
    #[inline]
    pub fn push_open(&mut self, kind: Option<Kind>) -> Result<(), Refusal>
        ensures ok { OnOk result (self.new ≡ with_last self.old (leaf (open_slot kind))) }
        ensures err { OnErr result (self.new ≡ self.old) }
        ensures refusal { AddsField result self.new (with_last self.old (leaf (open_slot kind))) }
    {
        let extent = self
            .extent
            .with_room(self.count, 0, 1, asks_for_wide(kind), &mut self.fields)?;
        self.fields.push_reserved(open_tag(kind));
        self.count += 1;
        self.extent = extent;
        Ok(())
    }

    fn add_nested(&mut self, template: &Template<A>) -> Result<(), Refusal>
        ensures ok { OnOk result (self.new ≡ with_last self.old (inner template.now)) }
        ensures err { OnErr result (self.new ≡ self.old) }
        ensures refusal { AddsField result self.new (with_last self.old (inner template.now)) }
    {
        let len = 1 + template.encoded_len();
        let extent = self.extent.with_room(
            self.count,
            template.depth(),
            len,
            template.has_wide(),
            &mut self.fields,
        )?;
        let fixed = longer_front(self.fixed, self.extent, 2 + template.fixed as usize);
        put_nested(template.len() as u8, template.bytes(), &mut self.fields);
        self.count += 1;
        self.fixed = fixed;
        self.extent = extent;
        Ok(())
    }
}

// Whether a field that is open asks for wide numbers.
#[inline]
fn asks_for_wide(kind: Option<Kind>) -> bool
    ensures { result ≡ is_wide_slot (open_slot kind) }
{
    matches!(kind, Some(Kind::Wide))
}

/// Appends the spelling of the template. After an `Err` a part of it may follow the bytes.
pub fn put_template<A: Allocator, B: Allocator>(
    template: &Template<A>,
    out: &mut Vec<u8, B>,
) -> Result<(), NoMemory>
    ensures { PutsText (template_spelling template.now) out.old.items out.new.items result }
{
    put_byte(template.count, out)?;
    put_bytes(template.fields.as_slice(), out)
}
