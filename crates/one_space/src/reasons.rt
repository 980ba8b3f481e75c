//! Reasons in words, each on a line of its own after the complaint.

ghost use Rattle.std.specs.Prelude.{◌+◌, ◌≤◌, length};

use crate::escaped::ShownBytes;
use crate::session::LINES_END;
use std::fmt::{self, Display, Formatter};
use tuple_text::{LineFault, MAX_LINE};

// Most bytes that are shown of a line, apart from the rest of a last character.
const SHOWN: usize = 48;

/// Why a line is refused, with its bytes up to the one that decides.
#[derive(Clone, Copy, Drop)]
pub struct LineReason<'a> {
    /// The number of the line, from 1.
    pub number: u64,
    pub fault: LineFault,
    /// The line, or as many of its first bytes as were read.
    pub line: &'a [u8],
}

impl Display for LineReason<'_> {
    fn fmt<W: fmt::Write>(&self, f: &mut Formatter<W>) -> fmt::Result {
        if self.number >= LINES_END {
            return write!(f, "a script has less than {LINES_END} lines");
        }
        match self.fault {
            LineFault::BadByte { offset } => put_bad_byte(self.line, offset, f),
            fault => write!(f, "{fault}"),
        }
    }
}

// The byte at the offset is the first that no line has there.
fn put_bad_byte<W: fmt::Write>(line: &[u8], offset: usize, f: &mut Formatter<W>) -> fmt::Result {
    if offset >= MAX_LINE {
        return write!(f, "a line has at most {MAX_LINE} bytes");
    }
    if offset >= line.len() {
        return write!(f, "the line ends too early");
    }
    let end = character_from(line, offset + 1);
    if offset < SHOWN {
        return write!(f, "no line begins so: {}", ShownBytes(&line[..end]));
    }
    let start = character_from(line, offset - SHOWN);
    write!(f, "no line begins so: ..{}", ShownBytes(&line[start..end]))
}

// The first place from this one on at which no character goes on, or the third after it. A character has at most three
// bytes after its first, like `10......`.
fn character_from(line: &[u8], place: usize) -> usize
    requires { place ≤ length line.now }
    ensures from { place ≤ result }
    ensures within { result ≤ length line.now }
    ensures near { result ≤ place + 3 }
{
    let goes_on = line[place..]
        .iter()
        .take(3)
        .take_while(|byte| **byte & 0xc0 == 0x80);
    place + goes_on.count()
}
