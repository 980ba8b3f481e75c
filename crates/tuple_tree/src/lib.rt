//! Tuples and templates, seen as trees and kept as the bytes that spell these, under any allocator.
//!
//! A tuple is a list of values: numbers of 64 bits, wide numbers of 128 bits, texts, byte strings, truth values and
//! nested tuples. A template is a list of fields: actual values, formals and nested templates (Gelernter, Generative
//! communication in Linda, TOPLAS 1985; the kinds, the nesting and the limits are this project's own). Both keep their
//! limits by their types: at most [`MAX_FIELDS`] items in each list, [`MAX_DEPTH`] levels and [`MAX_LEN`] bytes of
//! encoding.
//!
//! # What is proved
//!
//! A `Tuple` is seen as the list of its values, a `Template` as that of its fields. Both keep the limits (32 items, 8
//! levels, 1,024 bytes) by their types. `push` adds an item at the end, or hands it back with the first limit that it
//! would pass and changes nothing; `push_atom` adds a value from where it lies, and `push_open` a formal or a field
//! that each value matches. `copy_in` gives an equal one under another allocator; `same` holds exactly of equal ones,
//! under two allocators. `len`, `depth`, `encoded_len`, `into_value` are exact. `has_wide` tells exactly whether a wide
//! number, or in a template its formal, is at some level. `values` and `fields` see the items one after another, and
//! `get` sees the one at a place. They see them where they lie, and take no memory.
//!
//! `bytes` are the spellings of the items, and `put_tuple` and `put_template` append the spelling of the whole.
//! `fixed_bytes` are those of a template before its first open field, and `is_fixed` tells exactly whether there is
//! none. `read_in` makes a tuple or template of the bytes that spell it, and `behind_tuple` and `behind_template` test
//! such bytes: both give what the readers of the definitions read.
#![tactic(auto)]

mod atoms;
mod fields;
mod fronts;
mod judging;
mod limits;
mod put;
mod reading;
mod skip;
mod templates;
mod tuples;
mod values;

pub use atoms::{Atom, Kind, note_bytes};
pub use fields::{FieldRef, Fields};
pub use judging::{behind_template, behind_tuple};
pub use limits::{MAX_DEPTH, MAX_FIELDS, MAX_LEN, Refusal, Refused};
pub use put::{put_behind, put_byte};
pub use reading::{read_byte, read_flag};
pub use skip::{skip_atom, skip_field, skip_value};
pub use templates::{Field, PushedField, Template, put_template};
pub use tuples::{Pushed, Tuple, Value, put_tuple};
pub use values::{AtomRef, ValueRef, Values, read_atom};
