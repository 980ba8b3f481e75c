//! Spellings of values and fields appended to bytes.

ghost use Rattle.std.specs.Prelude.{◌≡◌, ◌+◌, ◌≤◌, ◌∷◌, [], length};
ghost use Rattle.tuple_tree.specs.Values.{datum_length};
ghost use Rattle.tuple_tree.specs.Seen.{seen_datum, open_slot};
ghost use Rattle.tuple_tree.specs.Puts.{PutsText, HasRoom, FillsRoom};
ghost use Rattle.tuple_tree.specs.Spelling.{datum_spelling, slot_spelling, formal_tag};
ghost use Rattle.tuple_tree.specs.Spelling as Spelling;

use crate::atoms::Kind;
use crate::values::AtomRef;
use std::alloc::Allocator;
use terms::NoMemory;

/// Puts the spelling of the value.
// Where its kind is known, one arm is left.
#[inline(always)]
pub fn put_atom<A: Allocator>(atom: &AtomRef<'_>, out: &mut Vec<u8, A>)
    requires room { HasRoom out.old (datum_length (seen_datum atom.now)) }
    requires short { datum_length (seen_datum atom.now) ≤ 1024 }
    ensures { FillsRoom (datum_spelling (seen_datum atom.now)) out.old out.new }
{
    match atom {
        AtomRef::Number(number) => put_tagged(1, &number.to_be_bytes(), out),
        AtomRef::Text(text) => put_string(2, text, out),
        AtomRef::Bytes(bytes) => put_string(3, bytes, out),
        AtomRef::Truth(truth) => {
            out.push_reserved(4);
            out.push_reserved(*truth as u8);
        }
        AtomRef::Wide(number) => put_tagged(6, &wide_bytes(*number), out),
    }
}

#[tactic(auto, unfolding(crate::specs::Spelling::wide_bytes))]
fn wide_bytes(number: i128) -> [u8; 16]
    ensures { result ≡ Spelling.wide_bytes number }
{
    number.to_be_bytes()
}

#[inline(always)]
fn put_string<A: Allocator>(tag: u8, string: &[u8], out: &mut Vec<u8, A>)
    requires room { HasRoom out.old (3 + length string.now) }
    requires short { length string.now ≤ 1021 }
    ensures { FillsRoom (tag ∷ Spelling.string string.now) out.old out.new }
{
    let [high, low] = (string.len() as u16).to_be_bytes();
    out.push_reserved(tag);
    out.push_reserved(high);
    out.push_reserved(low);
    put_reserved(string, out);
}

/// Puts the spelling of a nested list of so many items, from the spellings of these.
#[inline]
pub fn put_nested<A: Allocator>(count: u8, items: &[u8], out: &mut Vec<u8, A>)
    requires { HasRoom out.old (2 + length items.now) }
    ensures { FillsRoom (5 ∷ count ∷ items.now) out.old out.new }
{
    put_tagged(5, &[count], out);
    put_reserved(items, out);
}

/// Puts a tag and the bytes after it.
// Where the number of the bytes is known, they are copied without a call.
#[inline(always)]
pub fn put_tagged<A: Allocator>(tag: u8, bytes: &[u8], out: &mut Vec<u8, A>)
    requires { HasRoom out.old (1 + length bytes.now) }
    ensures { FillsRoom (tag ∷ bytes.now) out.old out.new }
{
    out.push_reserved(tag);
    put_reserved(bytes, out);
}

/// Puts bytes where there is room for them.
#[inline(always)]
pub fn put_reserved<A: Allocator>(bytes: &[u8], out: &mut Vec<u8, A>)
    requires { HasRoom out.old (length bytes.now) }
    ensures { FillsRoom bytes.now out.old out.new }
{
    match out.extend_from_slice(bytes) {
        Ok(()) => {}
        Err(_) => unreachable!(),
    }
}

pub fn put_behind<B: Allocator>(tag: u8, bytes: &[u8], out: &mut Vec<u8, B>) -> Result<(), NoMemory>
    ensures { PutsText (tag ∷ bytes.now) out.old.items out.new.items result }
{
    put_byte(tag, out)?;
    put_bytes(bytes, out)
}

pub fn put_byte<B: Allocator>(byte: u8, out: &mut Vec<u8, B>) -> Result<(), NoMemory>
    ensures { PutsText (byte ∷ []) out.old.items out.new.items result }
{
    Ok(out.push(byte)?)
}

pub fn put_bytes<B: Allocator>(bytes: &[u8], out: &mut Vec<u8, B>) -> Result<(), NoMemory>
    ensures { PutsText bytes.now out.old.items out.new.items result }
{
    Ok(out.extend_from_slice(bytes)?)
}

/// The spelling of the formal of a kind, or of a field that each value matches.
#[inline]
pub fn open_tag(kind: Option<Kind>) -> u8
    ensures { slot_spelling (open_slot kind) ≡ result ∷ [] }
{
    match kind {
        None => 0x10,
        Some(kind) => kind_tag(kind),
    }
}

#[inline]
pub fn kind_tag(kind: Kind) -> u8
    ensures { result ≡ formal_tag kind }
{
    match kind {
        Kind::Number => 0x11,
        Kind::Text => 0x12,
        Kind::Bytes => 0x13,
        Kind::Truth => 0x14,
        Kind::Tuple => 0x15,
        Kind::Wide => 0x16,
    }
}
