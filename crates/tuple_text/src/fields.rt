//! From the bytes that spell fields to their text. A value of a tuple is spelled as the field that asks for it, so
//! tuples are written as templates are.

ghost use Rattle.std.specs.Prelude.{◌≡◌, ◌<◌, length, IfOk, Some};
ghost use Rattle.tuple_tree.specs.Reading.{rest_of, byte_at};
ghost use Rattle.tuple_tree.specs.Loose.{loose_slot_at};
ghost use Rattle.tuple_text.specs.Texts.{slot_text};
ghost use Rattle.tuple_text.specs.Written.{template_written, WritesText};
ghost use Rattle.tuple_text.specs.Walks.{spelled_field_at, spelled_fields_at, field_written, fields_written};
ghost use Rattle.tuple_text.specs.Walks.{others_written, IsThere, text_of};

use crate::write::{append, put_atom, put_byte};
use std::alloc::Allocator;
use terms::NoMemory;
use tuple_tree::read_atom;

/// Appends the text of a template of so many fields, with at most so many levels in each, and gives the bytes after
/// them.
#[cycle(put_list)]
pub(crate) fn put_list<'b, B: Allocator>(
    count: u8,
    bytes: &'b [u8],
    levels: u8,
    out: &mut Vec<u8, B>,
) -> Result<&'b [u8], NoMemory>
    requires { IsThere (spelled_fields_at levels count bytes.now) }
    ensures text { WritesText result out.old.items
        (text_of template_written (spelled_fields_at levels count bytes.now)) out.new.items }
    ensures rest { IfOk result (λ rest. rest_of (spelled_fields_at levels count bytes.now) ≡ Some rest.now) }
{
    put_byte(b'(', out)?;
    let rest = put_fields(count, bytes, levels, out)?;
    put_byte(b')', out)?;
    Ok(rest)
}

// The fields alone, a blank between them.
#[cycle(put_list)]
fn put_fields<'b, B: Allocator>(
    count: u8,
    bytes: &'b [u8],
    levels: u8,
    out: &mut Vec<u8, B>,
) -> Result<&'b [u8], NoMemory>
    requires { IsThere (spelled_fields_at levels count bytes.now) }
    ensures text { WritesText result out.old.items
        (text_of fields_written (spelled_fields_at levels count bytes.now)) out.new.items }
    ensures rest { IfOk result (λ rest. rest_of (spelled_fields_at levels count bytes.now) ≡ Some rest.now) }
{
    if count == 0 {
        return Ok(bytes);
    }
    let rest = put_field(bytes, levels, out)?;
    put_others(count - 1, rest, levels, out)
}

// The fields after the first one, a blank before each.
#[cycle(put_list)]
fn put_others<'b, B: Allocator>(
    count: u8,
    bytes: &'b [u8],
    levels: u8,
    out: &mut Vec<u8, B>,
) -> Result<&'b [u8], NoMemory>
    requires { IsThere (spelled_fields_at levels count bytes.now) }
    ensures text { WritesText result out.old.items
        (text_of others_written (spelled_fields_at levels count bytes.now)) out.new.items }
    ensures rest { IfOk result (λ rest. rest_of (spelled_fields_at levels count bytes.now) ≡ Some rest.now) }
{
    let mut rest = bytes;
    for _i in 0..count {
        put_byte(b' ', out)?;
        rest = put_field(rest, levels, out)?;
    }
    Ok(rest)
}

#[cycle(put_list)]
fn put_field<'b, B: Allocator>(
    bytes: &'b [u8],
    levels: u8,
    out: &mut Vec<u8, B>,
) -> Result<&'b [u8], NoMemory>
    requires { IsThere (spelled_field_at levels bytes.now) }
    ensures text { WritesText result out.old.items
        (text_of field_written (spelled_field_at levels bytes.now)) out.new.items }
    ensures rest { IfOk result (λ rest. rest_of (spelled_field_at levels bytes.now) ≡ Some rest.now) }
{
    let (tag, rest) = first_byte(bytes);
    if tag != 5 {
        return put_slot(tag, rest, out);
    }
    let (count, fields) = first_byte(rest);
    put_list(count, fields, levels - 1, out)
}

// The first byte, and the others.
fn first_byte(bytes: &[u8]) -> (u8, &[u8])
    requires { 0 < length bytes.now }
    ensures { byte_at bytes.now ≡ Some (result.0, result.1.now) }
{
    let (first, rest) = bytes.split_at(1);
    (first[0], rest)
}

// A field that is no template, after its tag.
#[tactic(auto, unfolding(tuple_tree::specs::Loose::loose_slot_at))]
fn put_slot<'b, B: Allocator>(
    tag: u8,
    bytes: &'b [u8],
    out: &mut Vec<u8, B>,
) -> Result<&'b [u8], NoMemory>
    requires { IsThere (loose_slot_at tag bytes.now) }
    ensures text { WritesText result out.old.items (text_of slot_text (loose_slot_at tag bytes.now)) out.new.items }
    ensures rest { IfOk result (λ rest. rest_of (loose_slot_at tag bytes.now) ≡ Some rest.now) }
{
    match tag {
        0x10 => put_alone(b"*", bytes, out),
        0x11 => put_alone(b"?int", bytes, out),
        0x12 => put_alone(b"?text", bytes, out),
        0x13 => put_alone(b"?bytes", bytes, out),
        0x14 => put_alone(b"?bool", bytes, out),
        0x15 => put_alone(b"?tuple", bytes, out),
        0x16 => put_alone(b"?wide", bytes, out),
        _ => match read_atom(tag, bytes) {
            Some((atom, rest)) => {
                put_atom(&atom, out)?;
                Ok(rest)
            }
            // There is one.
            None => Ok(bytes),
        },
    }
}

// The text of a field that takes no bytes after its tag.
fn put_alone<'b, B: Allocator>(
    text: &[u8],
    bytes: &'b [u8],
    out: &mut Vec<u8, B>,
) -> Result<&'b [u8], NoMemory>
    ensures text { WritesText result out.old.items text.now out.new.items }
    ensures rest { IfOk result (λ rest. rest.now ≡ bytes.now) }
{
    append(text, out)?;
    Ok(bytes)
}
