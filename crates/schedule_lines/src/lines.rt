//! The lines of a schedule, one at a time. Of blanks in front and of a comment a piece is held, and of another line at
//! most as much as the longest step has.

ghost use Rattle.std.specs.Prelude.{◌≡◌, ◌≤◌, ◌∷◌, [], vec_len};
ghost use Rattle.tuple_text.specs.Texts.{AreBlanks};
ghost use Rattle.tuple_text.specs.Lines.{IsComment};
ghost use Rattle.schedule_text.specs.Words.{trimmed};
ghost use Rattle.schedule_lines.specs.Reading.{JudgesLine, ReadsNext, ReadsOn};

use one_space::{PieceEnd, ReadFault, drop_return, is_blank, read_piece};
use schedule_text::{MAX_STEP, Reason, Step, StepFault, read_step};
use std::alloc::{AllocError, Global};
use std::io::{self, BufRead, ErrorKind};

// How much of a line is read at first. Most lines are shorter.
const PIECE: usize = 8192;

/// The next line.
#[derive(Drop)]
pub(crate) enum NextLine {
    /// There is no further line.
    End,
    Skipped,
    Step(Step),
}

/// Why no line was read.
#[derive(Drop)]
pub(crate) enum NoLine {
    /// The line is no step. The byte, from 0, is the one that shows it.
    Refused { byte: u64, reason: Reason },
    NoMemory,
    Read(io::Error),
}

impl From<ReadFault> for NoLine {
    ghost use Rattle.std.specs.Prelude.{◌≡◌};
    ghost use Rattle.schedule_lines.specs.Reading.{no_line_of};

    ghost from_gives = { λ fault no. no ≡ no_line_of fault };

    fn from(fault: ReadFault) -> NoLine {
        match fault {
            ReadFault::NoMemory => NoLine::NoMemory,
            ReadFault::Read(error) => NoLine::Read(error),
        }
    }
}

impl From<AllocError> for NoLine {
    ghost use Rattle.std.specs.Prelude.{◌≡◌};
    ghost use Rattle.schedule_lines.specs.declared.lines.NoLine.TheVariants.{NoMemory};

    ghost from_gives = { λ _ no. no ≡ NoMemory };

    fn from(_failed: AllocError) -> NoLine {
        NoLine::NoMemory
    }
}

/// Reads a line with its end, and judges it. A line that has more bytes from its first word on than a step may have is
/// refused there.
pub(crate) fn next_line<B: BufRead>(
    alloc: Global,
    reader: &mut B,
    line: &mut Vec<u8>,
) -> Result<NextLine, NoLine>
    ensures { ReadsNext result (B.remaining reader.old) (B.remaining reader.new) }
{
    line.clear();
    match read_piece(reader, PIECE, line)? {
        PieceEnd::LineFeed => {
            drop_return(line);
            judge(alloc, 0, line.as_slice())
        }
        PieceEnd::InputEnd => {
            if line.is_empty() {
                Ok(NextLine::End)
            } else {
                judge(alloc, 0, line.as_slice())
            }
        }
        PieceEnd::Full => long_line(alloc, reader, line),
    }
}

// The rest of a line that begins with a full piece. Blanks are let go, but for one, and so is a comment.
fn long_line<B: BufRead>(
    alloc: Global,
    reader: &mut B,
    line: &mut Vec<u8>,
) -> Result<NextLine, NoLine>
    requires { 8192 ≤ vec_len line.old }
    ensures { ReadsOn result line.old.items (B.remaining reader.old) (B.remaining reader.new) }
{
    if line[0] == b'#' {
        return match reader.skip_until(b'\n') {
            Ok(_) => Ok(NextLine::Skipped),
            Err(error) => Err(NoLine::Read(error)),
        };
    }
    if !is_blank(line.as_slice()) {
        return step_line(alloc, reader, 0, line);
    }
    let passed = line.len() as u64 - 1;
    line.truncate(1);
    blank_line(alloc, reader, passed, line)
}

// The rest of a line that begins with blanks. So many of them were let go, and one is left.
fn blank_line<B: BufRead>(
    alloc: Global,
    reader: &mut B,
    mut passed: u64,
    line: &mut Vec<u8>,
) -> Result<NextLine, NoLine>
    requires { line.old.items ≡ 32 ∷ [] }
    ensures { ReadsOn result (32 ∷ []) (B.remaining reader.old) (B.remaining reader.new) }
{
    for _ in 0..u64::MAX {
        match read_piece(reader, PIECE, line)? {
            PieceEnd::LineFeed => {
                drop_return(line);
                return judge(alloc, passed, line.as_slice());
            }
            PieceEnd::InputEnd => return judge(alloc, passed, line.as_slice()),
            PieceEnd::Full => {
                if !is_blank(line.as_slice()) {
                    return step_line(alloc, reader, passed, line);
                }
                passed = passed.saturating_add(line.len() as u64 - 1);
                line.truncate(1);
            }
        }
    }
    Err(NoLine::Read(io::Error::from(ErrorKind::Interrupted)))
}

// The rest of a line that is no comment, and not all blank so far. So many blanks in front of it were let go.
fn step_line<B: BufRead>(
    alloc: Global,
    reader: &mut B,
    passed: u64,
    line: &mut Vec<u8>,
) -> Result<NextLine, NoLine>
    requires { AreBlanks line.old.items → ⊥ }
    ensures { (IsComment line.old.items → ⊥)
        → ReadsOn result line.old.items (B.remaining reader.old) (B.remaining reader.new) }
{
    // With one byte more than a step may have the line is too long, and one more may be the return of its end.
    let blanks = line.len() - without_blanks(line.as_slice()).len();
    let most = blanks.saturating_add(MAX_STEP + 2);
    line.reserve_exact(most.saturating_sub(line.len()))?;
    match read_piece(reader, most, line)? {
        PieceEnd::LineFeed => {
            drop_return(line);
            judge(alloc, passed, line.as_slice())
        }
        PieceEnd::InputEnd => judge(alloc, passed, line.as_slice()),
        PieceEnd::Full => Err(NoLine::Refused {
            byte: passed.saturating_add(blanks as u64),
            reason: Reason::TooLong,
        }),
    }
}

// The line from its first byte on that is no blank.
fn without_blanks(line: &[u8]) -> &[u8]
    ensures { result.now ≡ trimmed line.now }
{
    let mut rest = line;
    while let [b' ', more @ ..] = rest {
        rest = more;
    }
    rest
}

// Judges a line, in front of which so many blanks were let go.
fn judge(alloc: Global, passed: u64, line: &[u8]) -> Result<NextLine, NoLine>
    ensures { JudgesLine result line.now }
{
    match read_step(alloc, line) {
        Ok(Some(step)) => Ok(NextLine::Step(step)),
        Ok(None) => Ok(NextLine::Skipped),
        Err(StepFault::Refused { byte, reason }) => Err(NoLine::Refused {
            byte: passed.saturating_add(byte as u64),
            reason,
        }),
        Err(StepFault::NoMemory) => Err(NoLine::NoMemory),
    }
}
