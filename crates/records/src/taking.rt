//! Records that are taken from the front of a reader's bytes.

ghost use Rattle.std.specs.Prelude.{◌≤◌, ◌<◌, length, MatchBool, IfSome, IfNone, vec_len, vec_capacity};
ghost use Rattle.records.specs.Records.{BeginsWithRecord, IsPartial};
ghost use Rattle.records.specs.Taking.{Fills, Passes, ReadsRecord, SaysLength, TakesSome};

use crate::notice::MAX_RECORD;
use std::io::{self, BufRead, ErrorKind};

/// How many bytes are asked for at once.
pub(crate) const PIECE: usize = 65_536;

/// Whether a record stands at the front of the bytes.
pub(crate) fn begins_with_record(bytes: &[u8]) -> bool
    ensures { MatchBool result (BeginsWithRecord bytes.now) (IsPartial bytes.now) }
{
    match length_at(bytes) {
        Some(length) => length <= bytes.len() - 4,
        None => false,
    }
}

// The length that the first four bytes say.
fn length_at(bytes: &[u8]) -> Option<usize>
    ensures says { IfSome result (SaysLength bytes.now) }
    ensures none { IfNone result (length bytes.now < 4) }
{
    match bytes {
        [a, b, c, d, ..] => Some(u32::from_be_bytes([*a, *b, *c, *d]) as usize),
        _ => None,
    }
}

/// Takes the next record, and gives whether there was one. The body stays empty if it is too long.
pub(crate) fn read_record<B: BufRead>(reader: &mut B, body: &mut Vec<u8>) -> io::Result<bool>
    requires room { MAX_RECORD ≤ vec_capacity body.old }
    ensures room { MAX_RECORD ≤ vec_capacity body.new }
    ensures short { vec_len body.new ≤ MAX_RECORD }
    ensures reads { ReadsRecord B.remaining result reader.old reader.new body.new.items }
{
    body.clear();
    fill(reader, 4, body)?;
    let said = length_at(body.as_slice());
    body.clear();
    let Some(length) = said else {
        return Ok(false);
    };
    if length > MAX_RECORD {
        let is_passed = pass(reader, length, body);
        body.clear();
        return is_passed;
    }
    let is_whole = fill(reader, length, body)?;
    if !is_whole {
        body.clear();
    }
    Ok(is_whole)
}

// Passes so many bytes, and gives whether there were so many. They go through the body, a piece at a time.
fn pass<B: BufRead>(reader: &mut B, count: usize, body: &mut Vec<u8>) -> io::Result<bool>
    requires room { MAX_RECORD ≤ vec_capacity body.old }
    ensures room { MAX_RECORD ≤ vec_capacity body.new }
    ensures passes { Passes B.remaining result count reader.old reader.new }
{
    let mut left = count;
    for _ in 0..u64::MAX {
        if left == 0 {
            return Ok(true);
        }
        let some = left.min(PIECE);
        body.clear();
        if !fill(reader, some, body)? {
            return Ok(false);
        }
        left -= some;
    }
    Err(io::Error::from(ErrorKind::Interrupted))
}

// Takes bytes until there are so many in the body, and gives whether there were.
fn fill<B: BufRead>(reader: &mut B, count: usize, body: &mut Vec<u8>) -> io::Result<bool>
    requires room { count ≤ vec_capacity body.old }
    requires short { vec_len body.old ≤ count }
    ensures room { vec_capacity body.old ≤ vec_capacity body.new }
    ensures short { vec_len body.new ≤ count }
    ensures fills { Fills B.remaining result count reader.old reader.new body.old.items body.new.items }
{
    for _ in 0..u64::MAX {
        if body.len() == count {
            return Ok(true);
        }
        if !take_some(reader, count, body)? {
            return Ok(false);
        }
    }
    Err(io::Error::from(ErrorKind::Interrupted))
}

// One read. Gives whether the input may go on.
fn take_some<B: BufRead>(reader: &mut B, count: usize, body: &mut Vec<u8>) -> io::Result<bool>
    requires room { count ≤ vec_capacity body.old }
    requires short { vec_len body.old < count }
    ensures room { vec_capacity body.old ≤ vec_capacity body.new }
    ensures short { vec_len body.new ≤ count }
    ensures takes { TakesSome B.remaining result reader.old reader.new body.old.items body.new.items }
{
    let available = match reader.fill_buf() {
        Ok(available) => available,
        Err(error) => {
            return if error.kind() == ErrorKind::Interrupted {
                Ok(true)
            } else {
                Err(error)
            };
        }
    };
    let taken = available.len().min(count - body.len());
    body.extend_from_slice(&available[..taken])?;
    reader.consume(taken);
    Ok(taken > 0)
}
