//! Pieces of lines.

ghost use Rattle.std.specs.Prelude.{◌≡◌, ◌≢◌, Ok, ◌==◌, ◌≤◌, ℕ, slice_index, ◌+◌, ◌-◌, ◌<◌, ◌++◌, Some, drop, length};
ghost use Rattle.std.specs.Prelude.{vec_len};
ghost use Rattle.std.specs.List.{list_all};
ghost use Rattle.std.specs.Str.Lines.{strip_carriage_return};
ghost use Rattle.one_space.specs.Pieces.{ReadsPiece, ReadsPart, piece_end_of};

use memchr::memchr;
use std::alloc::AllocError;
use std::io::{self, BufRead, ErrorKind};

/// How a piece of a line ends.
#[derive(Clone, Copy, PartialEq, Eq)]
pub enum PieceEnd {
    LineFeed,
    InputEnd,
    /// The piece has as many bytes as it may have.
    Full,
}

/// Why nothing was read.
#[derive(Drop)]
pub enum ReadFault {
    NoMemory,
    Read(io::Error),
}

impl From<AllocError> for ReadFault {
    fn from(_failed: AllocError) -> ReadFault {
        ReadFault::NoMemory
    }
}

/// Adds the bytes of a line up to its end, the input's end or the limit. A line feed is passed, but not added.
pub fn read_piece<B: BufRead>(
    reader: &mut B,
    limit: usize,
    piece: &mut Vec<u8>,
) -> Result<PieceEnd, ReadFault>
    ensures full { result ≡ Ok PieceEnd.Full → limit ≤ vec_len piece.new }
    ensures known { ReadsPiece B.remaining result limit reader.old reader.new piece.old piece.new }
{
    for _ in 0..u64::MAX {
        if let Some(end) = read_some(reader, limit, piece)? {
            return Ok(end);
        }
    }
    Err(ReadFault::Read(io::Error::from(ErrorKind::Interrupted)))
}

// One read. `None` if the piece may go on.
fn read_some<B: BufRead>(
    reader: &mut B,
    limit: usize,
    piece: &mut Vec<u8>,
) -> Result<Option<PieceEnd>, ReadFault>
    ensures full { result ≡ Ok (Some PieceEnd.Full) → limit ≤ vec_len piece.new }
    ensures known { ReadsPart B.remaining result limit reader.old reader.new piece.old piece.new }
{
    let available = match reader.fill_buf() {
        Ok(available) => available,
        Err(error) => {
            return if error.kind() == ErrorKind::Interrupted {
                Ok(None)
            } else {
                Err(ReadFault::Read(error))
            };
        }
    };
    let room = limit.saturating_sub(piece.len());
    let shown = &available[..available.len().min(room)];
    let count = line_len(shown);
    let is_ended = count < shown.len();
    let taken = count + usize::from(is_ended);
    let is_at_end = available.is_empty();
    piece.extend_from_slice(&shown[..count])?;
    reader.consume(taken);
    Ok(piece_end(is_ended, is_at_end, piece.len() >= limit))
}

fn piece_end(is_ended: bool, is_at_end: bool, is_full: bool) -> Option<PieceEnd>
    ensures { result ≡ piece_end_of is_ended is_at_end is_full }
{
    if is_ended {
        Some(PieceEnd::LineFeed)
    } else if is_at_end {
        Some(PieceEnd::InputEnd)
    } else if is_full {
        Some(PieceEnd::Full)
    } else {
        None
    }
}

// How many bytes stand before the first line feed, or how many there are.
fn line_len(bytes: &[u8]) -> usize
    ensures within { result ≤ length bytes.now }
    ensures before { (k : ℕ) → k < result → slice_index bytes.now k ≢ 10 }
    ensures found { result < length bytes.now → slice_index bytes.now result ≡ 10 }
{
    match memchr(b'\n', bytes) {
        Some(place) => place,
        None => bytes.len(),
    }
}

/// Whether each byte is a blank.
pub fn is_blank(bytes: &[u8]) -> bool
    ensures { result ≡ list_all (λ b. b == 32) bytes.now }
{
    bytes.iter().all(|byte| *byte == b' ')
}

/// The line without a carriage return at its end.
pub fn without_return(line: &[u8]) -> &[u8]
    ensures { result.now ≡ strip_carriage_return line.now }
{
    match line {
        [front @ .., b'\r'] => front,
        _ => line,
    }
}

/// Drops a carriage return at the end.
pub fn drop_return(line: &mut Vec<u8>)
    ensures { line.new.items ≡ strip_carriage_return line.old.items }
{
    let len = line.len();
    if len > 0 && line[len - 1] == b'\r' {
        line.truncate(len - 1);
    }
}

/// Drops all bytes but the last.
pub fn keep_last(line: &mut Vec<u8>)
    requires { 0 < vec_len line.old }
    ensures { line.new.items ≡ drop (length line.old.items - 1) line.old.items }
{
    let last = line.len() - 1;
    line[0] = line[last];
    line.truncate(1);
}
