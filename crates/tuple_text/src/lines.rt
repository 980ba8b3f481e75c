//! Script lines.

ghost use Rattle.std.specs.Prelude.{◌≡◌, ◌+◌, ◌≤◌, length, IsTrue, ◌↔◌};
ghost use Rattle.tuple_text.specs.Lines.{IsSkipped};
ghost use Rattle.tuple_text.specs.Judged.{JudgesLine, ReadsEachLine, JudgesTemplateText, ReadsEachText};

use crate::faults::{LineFault, MAX_LINE};
use crate::reader::Reader;
use std::alloc::Allocator;
use tuple_codec::Op;
use tuple_tree::Template;

// Most bytes of a template's text: as many as fit into a line after `rdp `.
const MAX_TEXT: usize = MAX_LINE - 4;

fn is_skipped(line: &[u8]) -> bool
    ensures { IsTrue result ↔ IsSkipped line.now }
{
    if let [b'#', ..] = line {
        return true;
    }
    Reader::new(line).is_blank()
}

/// The operation of a line, which comes without its line end. `None` if the line is empty, of blanks alone, or begins
/// with a hash.
///
/// # Errors
///
/// The line is judged from left to right. The first byte that can't continue any valid line, or passes a limit of
/// tuples and templates, decides. The byte 65,536 counts as one that can't continue any line.
// Inlined, so that the operation is made where the caller wants it.
#[inline(always)]
pub fn read_line<A: Allocator + Copy>(alloc: A, line: &[u8]) -> Result<Option<Op<A>>, LineFault>
    // The operation is that of the line, and the fault is the first one.
    ensures answer { JudgesLine line.now result }

    // The line of an operation is read as that operation, unless memory runs out.
    ensures only { ReadsEachLine line.now result }
    ensures skipped { IsSkipped line.now → result ≡ Ok None }
{
    if is_skipped(line) {
        return Ok(None);
    }
    let front = &line[..line.len().min(MAX_LINE)];
    let mut reader = Reader::new(front);
    match reader.line(alloc) {
        Ok(op) => {
            if line.len() > MAX_LINE {
                return Err(LineFault::BadByte { offset: MAX_LINE });
            }
            Ok(Some(op))
        }
        Err(stop) => Err(stop.fault(front.len().saturating_sub(reader.left()))),
    }
}

/// The template of this text, which may have blanks at both ends: the one that the line `rdp TEXT` asks for.
///
/// # Errors
///
/// As of the line `rdp TEXT`; offsets count from the text's first byte. The byte 65,532 counts as one that can't
/// continue any text.
pub fn read_template<A: Allocator + Copy>(alloc: A, text: &[u8]) -> Result<Template<A>, LineFault>
    ensures answer { JudgesTemplateText text.now result }

    // The text of a template is read as that template, unless memory runs out.
    ensures only { ReadsEachText text.now result }
{
    let taken = &text[..text.len().min(MAX_TEXT)];
    let mut reader = Reader::new(taken);
    match reader.lone_template(alloc) {
        Ok(template) => {
            if text.len() > MAX_TEXT {
                return Err(LineFault::BadByte { offset: MAX_TEXT });
            }
            Ok(template)
        }
        Err(stop) => Err(stop.fault(taken.len().saturating_sub(reader.left()))),
    }
}
