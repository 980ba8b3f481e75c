//! Lines of a script, read with memory for one line.

ghost use Rattle.std.specs.Prelude.{◌≡◌, ◌<◌, ◌≤◌, [], IfOk, IfSome, OnOk, vec_len};
ghost use Rattle.std.specs.Io.BufRead.{DropsThrough};
ghost use Rattle.tuple_text.specs.declared.faults.LineFault.TheVariants.{BadByte};
ghost use Rattle.one_space.specs.NextLines.{ReadsNext, TellsLine, JudgesNextLine};
ghost use Rattle.one_space.specs.LongLines.{ReadsOn, ReadsBlanks, JudgesBlanks, JudgesEarly, DropsBlanks};

use crate::pieces::{PieceEnd, ReadFault, drop_return, is_blank, keep_last, read_piece};
use std::alloc::Allocator;
use std::io::{self, BufRead, ErrorKind};
use tuple_codec::Op;
use tuple_text::{LineFault, MAX_LINE, read_line};

// A line that is too long for a script is judged by one byte more than a line may have.
const JUDGED: usize = MAX_LINE + 1;

// With one more there is room for the carriage return of the longest line that is not too long.
const PIECE: usize = MAX_LINE + 2;

/// The next line.
#[derive(Drop)]
pub enum NextLine<A: Allocator> {
    /// There is no further line.
    End,
    Skipped,
    Operation(Op<A>),
}

/// Why no line was read.
#[derive(Drop)]
pub enum NoLine {
    /// The line is refused, and passed.
    Refused(LineFault),
    /// The line is refused by its first bytes, and the rest of it is left.
    RefusedEarly(LineFault),
    NoMemory,
    Read(io::Error),
}

impl From<ReadFault> for NoLine {
    ghost use Rattle.one_space.specs.NextLines.{no_line_of};

    ghost from_gives = { λ fault no. no ≡ no_line_of fault };

    fn from(fault: ReadFault) -> NoLine {
        match fault {
            ReadFault::NoMemory => NoLine::NoMemory,
            ReadFault::Read(error) => NoLine::Read(error),
        }
    }
}

/// Reads a line with its end, and judges it. A line of more than 65,536 bytes is read in parts, one at a time.
pub fn next_line<A: Allocator + Copy, B: BufRead>(
    alloc: A,
    reader: &mut B,
    line: &mut Vec<u8>,
) -> Result<NextLine<A>, NoLine>
    ensures { ReadsNext result (B.remaining reader.old) (B.remaining reader.new) line.new.items }
{
    line.clear();
    match read_piece(reader, PIECE, line)? {
        PieceEnd::LineFeed => {
            drop_return(line);
            judge(alloc, line.as_slice())
        }
        PieceEnd::InputEnd => {
            if line.is_empty() {
                Ok(NextLine::End)
            } else {
                judge(alloc, line.as_slice())
            }
        }
        PieceEnd::Full => long_line(alloc, reader, line),
    }
}

/// Passes the rest of a line, whatever its length, with its end.
pub fn skip_rest<B: BufRead>(reader: &mut B) -> Result<(), ReadFault>
    ensures { OnOk result (DropsThrough (B.remaining reader.old) (B.remaining reader.new) 10) }
{
    match reader.skip_until(b'\n') {
        Ok(_) => Ok(()),
        Err(error) => Err(ReadFault::Read(error)),
    }
}

/// Whether a line is left. Takes its first byte.
pub fn has_line<B: BufRead>(reader: &mut B, line: &mut Vec<u8>) -> Result<bool, ReadFault>
    ensures { IfSome (B.remaining reader.old) (λ xs. IfOk result (λ more. TellsLine more xs)) }
{
    line.clear();
    match read_piece(reader, 1, line)? {
        PieceEnd::LineFeed | PieceEnd::Full => Ok(true),
        PieceEnd::InputEnd => Ok(!line.is_empty()),
    }
}

fn judge<A: Allocator + Copy>(alloc: A, line: &[u8]) -> Result<NextLine<A>, NoLine>
    ensures { JudgesNextLine result line.now }
{
    match read_line(alloc, line) {
        Ok(Some(op)) => Ok(NextLine::Operation(op)),
        Ok(None) => Ok(NextLine::Skipped),
        Err(LineFault::NoMemory) => Err(NoLine::NoMemory),
        Err(fault) => Err(NoLine::Refused(fault)),
    }
}

// The line is too long, unless it is skipped: its first bytes decide, if they aren't all blanks.
fn long_line<A: Allocator + Copy, B: BufRead>(
    alloc: A,
    reader: &mut B,
    line: &mut Vec<u8>,
) -> Result<NextLine<A>, NoLine>
    requires { 65538 ≤ vec_len line.old }
    ensures { ReadsOn result line.old.items (B.remaining reader.old) (B.remaining reader.new)
        line.new.items }
{
    if line[0] == b'#' {
        skip_rest(reader)?;
        return Ok(NextLine::Skipped);
    }
    let (front, _) = line.as_slice().split_at(JUDGED);
    if !is_blank(front) {
        return early(judge(alloc, front));
    }
    if !drop_blanks(line) {
        return Err(NoLine::RefusedEarly(too_many_blanks()));
    }
    blanks_line(reader, line)
}

// The judgement of a front, for the line that begins so.
fn early<A: Allocator>(judged: Result<NextLine<A>, NoLine>) -> Result<NextLine<A>, NoLine>
    ensures { JudgesEarly judged result }
{
    match judged {
        Err(NoLine::Refused(fault)) => Err(NoLine::RefusedEarly(fault)),
        other => other,
    }
}

// The rest of a line that begins with more blanks than a line may have: it is skipped if no other byte follows.
fn blanks_line<A: Allocator, B: BufRead>(
    reader: &mut B,
    line: &mut Vec<u8>,
) -> Result<NextLine<A>, NoLine>
    requires { 0 < vec_len line.old }
    ensures { ReadsBlanks result line.old.items (B.remaining reader.old) (B.remaining reader.new)
        line.new.items }
{
    for _ in 0..u64::MAX {
        match read_piece(reader, PIECE, line)? {
            PieceEnd::LineFeed => {
                drop_return(line);
                return blanks_end(line);
            }
            PieceEnd::InputEnd => return blanks_end(line),
            PieceEnd::Full => {
                if !drop_blanks(line) {
                    return Err(NoLine::RefusedEarly(too_many_blanks()));
                }
            }
        }
    }
    Err(NoLine::Read(io::Error::from(ErrorKind::Interrupted)))
}

// Judges the end of such a line. Nothing of a refused one is kept, since its beginning is gone.
fn blanks_end<A: Allocator>(line: &mut Vec<u8>) -> Result<NextLine<A>, NoLine>
    ensures judged { JudgesBlanks result line.old.items }
    ensures none { line.new.items ≡ [] }
{
    let blank = is_blank(line.as_slice());
    line.clear();
    if blank {
        Ok(NextLine::Skipped)
    } else {
        Err(NoLine::Refused(too_many_blanks()))
    }
}

fn too_many_blanks() -> LineFault
    ensures { result ≡ BadByte 65536 }
{
    LineFault::BadByte { offset: MAX_LINE }
}

// Drops all bytes but the last, if they are blanks. The last may be a carriage return that belongs to the line's end.
fn drop_blanks(line: &mut Vec<u8>) -> bool
    requires { 0 < vec_len line.old }
    ensures { DropsBlanks result line.old.items line.new.items }
{
    let (front, _) = line.as_slice().split_at(line.len() - 1);
    if !is_blank(front) {
        return false;
    }
    keep_last(line);
    true
}
