//! The texts of pages.

ghost use Rattle.std.specs.Prelude.{◌≡◌, ◌++◌, ◌∷◌, length, IfOk, OnOk, IfSome, IsSome};
ghost use Rattle.std.specs.Int.{w64, to_be_bytes};
ghost use Rattle.space.specs.Found.{births_text};
ghost use Rattle.tuple_tree.specs.Spelling.{tuple_spelling};
ghost use Rattle.space.specs.Pages.{stored_text, entry_text, version_byte};

use crate::stored::Stored;
use crate::version::Version;
use byteorder::{BigEndian, ByteOrder};
use std::alloc::Global;
use terms::NoMemory;
use tuple_codec::encode_tuple;
use tuple_tree::Tuple;

/// How many bytes a header has.
pub const HEADER_LEN: usize = 17;

// How many bytes stand before a tuple at most: its birth, and its length.
const HEAD_LEN: usize = 10;

/// A text with that of the tuples of these births behind it, in the form of a version.
pub fn text_behind(
    alloc: Global,
    front: &[u8],
    version: Version,
    tuples: &Stored,
    births: &[u64],
) -> Result<Vec<u8>, NoMemory>
    ensures { IfOk result
        (λ text. text.items ≡ front.now ++ births_text version tuples.now.entries births.now) }
{
    let mut text = begin_text(alloc, front, births_len(tuples, births))?;
    for birth in births {
        if let Some(tuple) = tuples.get(*birth) {
            put_entry(version, *birth, tuple, &mut text)?;
        }
    }
    Ok(text)
}

// A text that begins so, in a block with room for so many bytes more.
fn begin_text(alloc: Global, front: &[u8], more: usize) -> Result<Vec<u8>, NoMemory>
    ensures { IfOk result (λ text. text.items ≡ front.now) }
{
    let mut text = Vec::with_capacity(alloc, front.len().saturating_add(more))?;
    text.extend_from_slice(front)?;
    Ok(text)
}

// How many bytes the text of the tuples of these births takes at most. So it grows in one block.
fn births_len(tuples: &Stored, births: &[u64]) -> usize {
    let mut len: usize = 0;
    for birth in births {
        if let Some(tuple) = tuples.get(*birth) {
            len = len.saturating_add(HEAD_LEN + usize::from(len_of(tuple)));
        }
    }
    len
}

fn put_entry(
    version: Version,
    birth: u64,
    tuple: &Tuple<Global>,
    out: &mut Vec<u8>,
) -> Result<(), NoMemory>
    ensures { OnOk result (out.new.items ≡ out.old.items ++ entry_text version (birth, tuple.now)) }
{
    out.extend_from_slice(&birth.to_be_bytes())?;
    put_stored(version, tuple, out)
}

// The tuple, as it stands after its birth.
fn put_stored(version: Version, tuple: &Tuple<Global>, out: &mut Vec<u8>) -> Result<(), NoMemory>
    ensures { OnOk result (out.new.items ≡ out.old.items ++ stored_text version tuple.now) }
{
    match version {
        Version::One => encode_tuple(tuple, out),
        Version::Two => {
            out.extend_from_slice(&len_of(tuple).to_be_bytes())?;
            encode_tuple(tuple, out)
        }
    }
}

/// The length of a tuple's spelling.
pub fn len_of(tuple: &Tuple<Global>) -> u16
    ensures { result ≡ length (tuple_spelling tuple.now) }
{
    tuple.encoded_len() as u16
}

/// The first byte of a header.
pub fn first_byte(version: Version) -> u8
    ensures { result ≡ version_byte version }
{
    match version {
        Version::One => 1,
        Version::Two => 2,
    }
}

/// The version by the first byte of a header; none if no version has it.
pub fn version_of(first: u8) -> Option<Version>
    ensures found { IfSome result (λ version. version_byte version ≡ first) }
    ensures only { (version : Version) → version_byte version ≡ first → IsSome result }
{
    match first {
        1 => Some(Version::One),
        2 => Some(Version::Two),
        _ => None,
    }
}

/// The text of a header: a byte for the version, the number of executed batches, and the next birth number.
pub fn header_of(version: Version, number: u64, next: u64) -> [u8; HEADER_LEN]
    ensures { result ≡ version_byte version ∷ to_be_bytes w64 number ++ to_be_bytes w64 next }
{
    let mut text = [first_byte(version); HEADER_LEN];
    BigEndian::write_u64(&mut text[1..], number);
    BigEndian::write_u64(&mut text[9..], next);
    text
}
