//! Labels of tuples, by which most tuples that don't match are told without a look at them.

ghost use Rattle.std.specs.Prelude.{◌≡◌, IsTrue, IfSome, Some, option_map, slice_get};
ghost use Rattle.tuple_tree.specs.Items.{leaf, as_list};
ghost use Rattle.tuple_tree.specs.Values.{actual, formal, datum_kind};
ghost use Rattle.tuple_tree.specs.Seen.{seen_datum};
ghost use Rattle.tuple_tree.specs.Spelling.{formal_tag};
ghost use Rattle.space.specs.Firsts.{front_at};
ghost use Rattle.space.specs.Prints.{datum_print, front_print, entry_label, first_kind, tuple_print, IsUnlike};
ghost use Rattle.space.specs.Prints.{TellsMatches};

use std::alloc::Allocator;
use tuple_tree::{AtomRef, Kind, Template, Tuple, read_atom, read_byte, skip_field, skip_value};

/// What a search knows of a tuple without a look at it.
#[derive(Clone, Copy)]
pub struct Label {
    birth: u64,
    // What the second value tells. The index goes by the first one.
    second: u64,
    first: Kind,
}

/// What a label has to tell if a template matches the tuple.
#[derive(Clone, Copy)]
pub enum Wanted {
    Anything,
    First(Kind),
    Second(u64),
}

/// The label of a tuple.
pub fn label_of<A: Allocator>(birth: u64, tuple: &Tuple<A>) -> Label
    ensures { result ≡ entry_label (birth, tuple.now) }
{
    Label {
        birth,
        second: print_of_tuple(tuple),
        first: first_kind(tuple),
    }
}

/// Whether this is the label of a birth, and isn't the wanted one.
pub fn is_of_other(label: &Label, birth: u64, wanted: &Wanted) -> bool
    ensures birth { IsTrue result → label.now.birth ≡ birth }
    ensures other { IsTrue result → IsUnlike wanted.now label.now }
{
    label.birth == birth && is_unlike(label, wanted)
}

/// Whether this is the label of a birth.
pub fn is_of(label: &Label, birth: u64) -> bool {
    label.birth == birth
}

/// What the labels of the tuples that a template matches tell.
pub fn wanted_by<A: Allocator>(template: &Template<A>) -> Wanted
    ensures { TellsMatches template.now result }
{
    match second_actual(template) {
        Some(atom) => Wanted::Second(print_of(&atom)),
        None => wanted_first(template),
    }
}

fn second_actual<A: Allocator>(template: &Template<A>) -> Option<AtomRef<'_>>
    ensures { IfSome result (λ atom. slice_get (as_list template.now) 1 ≡ Some (leaf (actual (seen_datum atom)))) }
{
    front_atom(skip_field(template.bytes(), 7)?)
}

fn wanted_first<A: Allocator>(template: &Template<A>) -> Wanted
    ensures { TellsMatches template.now result }
{
    match first_formal(template) {
        Some(kind) => Wanted::First(kind),
        None => Wanted::Anything,
    }
}

fn first_formal<A: Allocator>(template: &Template<A>) -> Option<Kind>
    ensures { IfSome result (λ kind. slice_get (as_list template.now) 0 ≡ Some (leaf (formal kind))) }
{
    let (tag, _) = read_byte(template.bytes())?;
    formal_kind(tag)
}

fn formal_kind(tag: u8) -> Option<Kind>
    ensures { IfSome result (λ kind. tag ≡ formal_tag kind) }
{
    match tag {
        0x11 => Some(Kind::Number),
        0x12 => Some(Kind::Text),
        0x13 => Some(Kind::Bytes),
        0x14 => Some(Kind::Truth),
        0x15 => Some(Kind::Tuple),
        0x16 => Some(Kind::Wide),
        _ => None,
    }
}

fn is_unlike(label: &Label, wanted: &Wanted) -> bool
    ensures { IsTrue result → IsUnlike wanted.now label.now }
{
    match wanted {
        Wanted::Anything => false,
        Wanted::First(kind) => label.first != *kind,
        Wanted::Second(number) => label.second != *number,
    }
}

fn print_of_tuple<A: Allocator>(tuple: &Tuple<A>) -> u64
    ensures { result ≡ tuple_print tuple.now }
{
    match skip_value(tuple.bytes(), 7) {
        Some(rest) => print_at(rest),
        None => 0,
    }
}

// What the value at the front tells.
fn print_at(bytes: &[u8]) -> u64
    ensures { result ≡ front_print (front_at bytes.now) }
{
    match front_atom(bytes) {
        Some(atom) => print_of(&atom),
        None => 0,
    }
}

// The value at the front, unless a list or a formal stands there.
#[tactic(auto, unfolding(crate::specs::Firsts::front_at))]
fn front_atom(bytes: &[u8]) -> Option<AtomRef<'_>>
    ensures { option_map (λ atom. seen_datum atom) result ≡ front_at bytes.now }
{
    let (tag, rest) = read_byte(bytes)?;
    match read_atom(tag, rest) {
        Some((atom, _)) => Some(atom),
        None => None,
    }
}

// No template with a first field matches the tuple that has no values.
fn first_kind<A: Allocator>(tuple: &Tuple<A>) -> Kind
    ensures { result ≡ first_kind tuple.now }
{
    match front_atom(tuple.bytes()) {
        Some(atom) => kind_of(&atom),
        None => Kind::Tuple,
    }
}

fn kind_of(atom: &AtomRef<'_>) -> Kind
    ensures { result ≡ datum_kind (seen_datum atom.now) }
{
    match atom {
        AtomRef::Number(_) => Kind::Number,
        AtomRef::Text(_) => Kind::Text,
        AtomRef::Bytes(_) => Kind::Bytes,
        AtomRef::Truth(_) => Kind::Truth,
        AtomRef::Wide(_) => Kind::Wide,
    }
}

// A number without its sign, or how many bytes there are.
fn print_of(atom: &AtomRef<'_>) -> u64
    ensures { result ≡ datum_print (seen_datum atom.now) }
{
    match atom {
        AtomRef::Number(number) => number.unsigned_abs(),
        AtomRef::Text(text) => text.len() as u64,
        AtomRef::Bytes(bytes) => bytes.len() as u64,
        AtomRef::Truth(_) | AtomRef::Wide(_) => 0,
    }
}
