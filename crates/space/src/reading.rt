//! From the texts of pages back to births and tuples.

ghost use Rattle.std.specs.Prelude.{◌≡◌, ◌≢◌, ℕ, ◌+◌, ◌*◌, ◌^◌, ◌≤◌, ◌<◌, ◌%◌, ◌++◌, ◌∷◌, [], length, All, AllPairs};
ghost use Rattle.std.specs.Prelude.{IfOk, OnOk, IfSome, IsSome};
ghost use Rattle.std.specs.Int.{w64, to_be_bytes};
ghost use Rattle.space.specs.Pages.{on_page};
ghost use Rattle.space.specs.Reading.{IsEntry, IsEntryOf, TupleIsAdded, IsHeader, ReadsStored, ReadsEachStored};
ghost use Rattle.space.specs.Reading.{ReadsSpelled, ReadsEach, ReadsPage, ReadsEachPage};

use crate::births::{BIRTHS_A_BATCH, MAX_ON_PAGE, PAGES};
use crate::pages::{HEADER_LEN, len_of, version_of};
use crate::version::Version;
use byteorder::{BigEndian, ByteOrder};
use std::alloc::Global;
use std::collections::BTreeMap;
use terms::NoMemory;
use tuple_codec::{Bad, decode_tuple};
use tuple_tree::Tuple;

// The numbers of batches end here.
const NUMBERS_END: u64 = 1 << 48;

// The tuple at the front, and the bytes after it.
fn read_tuple(alloc: Global, text: &[u8]) -> Result<(Tuple<Global>, &[u8]), Bad>
    ensures found { ReadsStored Version.One text.now result }
    ensures only { ReadsEachStored Version.One text.now result }
{
    match decode_tuple(alloc, text) {
        Ok((tuple, len)) => Ok((tuple, text.split_at(len).1)),
        Err(bad) => Err(bad),
    }
}

// The same, with the length of its spelling before it.
fn read_framed(alloc: Global, text: &[u8]) -> Result<(Tuple<Global>, &[u8]), Bad>
    ensures found { ReadsStored Version.Two text.now result }
    ensures only { ReadsEachStored Version.Two text.now result }
{
    if text.len() < 2 {
        return Err(Bad::Malformed);
    }
    let len = BigEndian::read_u16(text);
    let (tuple, rest) = read_tuple(alloc, text.split_at(2).1)?;
    if len_of(&tuple) != len {
        return Err(Bad::Malformed);
    }
    Ok((tuple, rest))
}

// The same by the version.
fn read_stored(alloc: Global, version: Version, text: &[u8]) -> Result<(Tuple<Global>, &[u8]), Bad>
    ensures found { ReadsStored version text.now result }
    ensures only { ReadsEachStored version text.now result }
{
    match version {
        Version::One => read_tuple(alloc, text),
        Version::Two => read_framed(alloc, text),
    }
}

// The birth and the tuple at the front, and the bytes after them.
fn read_entry(
    alloc: Global,
    version: Version,
    bytes: &[u8],
) -> Result<((u64, Tuple<Global>), &[u8]), Bad>
    ensures found { ReadsSpelled version IsEntry bytes.now result }
    ensures only { ReadsEach version IsEntry bytes.now result }
{
    if bytes.len() < 8 {
        return Err(Bad::Malformed);
    }
    let birth = BigEndian::read_u64(bytes);
    match read_stored(alloc, version, bytes.split_at(8).1) {
        Ok((tuple, rest)) => Ok(((birth, tuple), rest)),
        Err(bad) => Err(bad),
    }
}

// The same, if the birth lies on the page, from `least` on and below `next`.
fn read_entry_of(
    alloc: Global,
    version: Version,
    bytes: &[u8],
    page: usize,
    least: u64,
    next: u64,
) -> Result<((u64, Tuple<Global>), &[u8]), Bad>
    ensures found { ReadsSpelled version (IsEntryOf page least next) bytes.now result }
    ensures only { ReadsEach version (IsEntryOf page least next) bytes.now result }
{
    let (entry, rest) = read_entry(alloc, version, bytes)?;
    if entry.0 % PAGES as u64 != page as u64 || entry.0 < least || entry.0 >= next {
        return Err(Bad::Malformed);
    }
    Ok((entry, rest))
}

// Puts an entry where its birth belongs.
fn add_entry(
    tuples: &mut BTreeMap<u64, Tuple<Global>>,
    entry: (u64, Tuple<Global>),
) -> Result<(), NoMemory>
    requires rising { AllPairs (λ e f. e.0 < f.0) tuples.old.entries }
    requires latest { All (λ e. e.0 % PAGES ≡ entry.0 % PAGES → e.0 < entry.0) tuples.old.entries }
    ensures { OnOk result (TupleIsAdded tuples.old.entries tuples.new.entries entry) }
{
    match tuples.insert(entry.0, entry.1) {
        Ok(_) => Ok(()),
        Err(_) => Err(NoMemory),
    }
}

/// Adds the tuples of a page to those of other pages, and says how many they are, at most 64. The page's text has the
/// form of a version.
///
/// # Errors
///
/// Malformed if no page of a state with this next birth number has the text, else NoMemory if memory runs out. The
/// tuples that were added by then stay.
pub fn read_page(
    alloc: Global,
    version: Version,
    tuples: &mut BTreeMap<u64, Tuple<Global>>,
    text: &[u8],
    page: usize,
    next: u64,
) -> Result<u8, Bad>
    requires rising { AllPairs (λ e f. e.0 < f.0) tuples.old.entries }
    requires empty { on_page page tuples.old.entries ≡ [] }
    ensures found { ReadsPage version page next text.now result tuples.old.entries tuples.new.entries }
    ensures count { IfOk result (λ n. n ≡ length (on_page page tuples.new.entries)) }
    ensures only { ReadsEachPage version page next text.now result }
{
    let mut rest = text;
    let mut count = 0;
    let mut least = 0;
    while !rest.is_empty() {
        if count >= MAX_ON_PAGE {
            return Err(Bad::Malformed);
        }
        let (entry, after) = read_entry_of(alloc, version, rest, page, least, next)?;
        least = entry.0 + 1;
        add_entry(tuples, entry)?;
        count += 1;
        rest = after;
    }
    Ok(count)
}

/// The fields of a header.
#[derive(Clone, Copy)]
pub struct Header {
    /// The version of the space.
    pub version: Version,
    /// How many batches were executed.
    pub number: u64,
    /// The next birth number.
    pub next: u64,
}

/// The fields of a header; none if no state has it.
pub fn read_header(header: &[u8]) -> Option<Header>
    ensures found { IfSome result (λ h. IsHeader header.now h.version h.number h.next) }
    ensures only { (v : Version) (number next : ℕ) → IsHeader header.now v number next → IsSome result }
{
    if header.len() != HEADER_LEN {
        return None;
    }
    let Some(version) = version_of(header[0]) else {
        return None;
    };
    let number = BigEndian::read_u64(header.split_at(1).1);
    let next = BigEndian::read_u64(header.split_at(9).1);
    if number < NUMBERS_END && next <= number * BIRTHS_A_BATCH {
        Some(Header {
            version,
            number,
            next,
        })
    } else {
        None
    }
}
