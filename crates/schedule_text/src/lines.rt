//! The lines of a schedule.

ghost use Rattle.std.specs.Prelude.{◌≡◌, ◌↔◌, codes, IsTrue};
ghost use Rattle.tuple_codec.specs.OperationView.{operation_of};
ghost use Rattle.tuple_text.specs.Lines.{IsLine, IsSkipped, IsComment};
ghost use Rattle.schedule_text.specs.Judged.{JudgesStepLine};
ghost use Rattle.schedule_text.specs.Reading.{JudgesNamed, JudgesWord};

use crate::fault::{Argument, Reason, StepFault};
use crate::step::Step;
use crate::words::{Word, Words};
use std::alloc::Global;
use tuple_codec::Op;
use tuple_text::{LineFault, read_line};
use wire_format::MAX_FRAME;

/// Most bytes of a step's line, from its first word on: those of `bytes c65279 HEX`, where HEX is a frame of the
/// greatest length. Each other step that brings or makes a frame has a shorter line, if one blank stands before each
/// argument.
pub const MAX_STEP: usize = "bytes c65279 ".len() + 2 * MAX_FRAME;

/// The step of a line, which comes without its line end. `None` if the line is empty, of blanks alone, or begins with
/// a hash.
///
/// # Errors
///
/// Refused if the line is the text of no step, with the byte and the reason, and NoMemory if memory runs out.
pub fn read_step(alloc: Global, line: &[u8]) -> Result<Option<Step>, StepFault>
    // The given step is that of the line, and a refused line is the text of no step.
    ensures answer { JudgesStepLine line.now result }
    ensures skipped { IsSkipped line.now → result ≡ Ok None }
{
    if is_comment(line) {
        return Ok(None);
    }
    let mut words = Words::new(line);
    if words.rest().len() > MAX_STEP {
        return Err(StepFault::Refused {
            byte: words.byte(),
            reason: Reason::TooLong,
        });
    }
    match words.next() {
        None => Ok(None),
        Some(name) => Ok(Some(read_named(alloc, name, words)?)),
    }
}

fn is_comment(line: &[u8]) -> bool
    ensures { IsTrue result ↔ IsComment line.now }
{
    matches!(line, [b'#', ..])
}

fn is_word(word: &[u8], name: &[u8]) -> bool
    ensures { IsTrue result ↔ (word.now ≡ name.now) }
{
    word == name
}

// The step of this name, from the words after it.
fn read_named(alloc: Global, name: Word<'_>, words: Words<'_>) -> Result<Step, StepFault>
    ensures { JudgesNamed name.entry.text.now words.entry.rest.now result }
{
    if is_word(name.text, b"invoke") {
        read_invoke(alloc, words)
    } else if is_word(name.text, b"deliver") {
        read_deliver(words)
    } else if is_word(name.text, b"bytes") {
        read_feed(alloc, words)
    } else if is_word(name.text, b"seal") {
        read_seal(alloc, words)
    } else if is_word(name.text, b"sign") {
        read_sign(alloc, words)
    } else if is_word(name.text, b"tick") {
        read_tick(words)
    } else if is_word(name.text, b"flush") {
        read_flush(words)
    } else {
        Err(StepFault::Refused {
            byte: name.byte,
            reason: Reason::UnknownName,
        })
    }
}

// The line of an operation follows the client.
fn read_invoke(alloc: Global, mut words: Words<'_>) -> Result<Step, StepFault>
    ensures { JudgesNamed (codes "invoke") words.entry.rest.now result }
{
    let client = words.client()?;
    let op = read_op(alloc, words.rest(), words.byte())?;
    Ok(Step::Invoke { client, op })
}

// The operation of this line, whose first byte is at this place of the step's.
fn read_op(alloc: Global, line: &[u8], byte: usize) -> Result<Op<Global>, StepFault>
    ensures { JudgesWord operation_of (λ op text. IsLine op text) line.now result }
{
    match read_line(alloc, line) {
        Ok(Some(op)) => Ok(op),
        Ok(None) => Err(StepFault::Refused {
            byte,
            reason: Reason::Missing(Argument::Line),
        }),
        Err(LineFault::NoMemory) => Err(StepFault::NoMemory),
        Err(fault) => Err(StepFault::Refused {
            byte,
            reason: Reason::Operation(fault),
        }),
    }
}

fn read_deliver(mut words: Words<'_>) -> Result<Step, StepFault>
    ensures { JudgesNamed (codes "deliver") words.entry.rest.now result }
{
    let frame = words.number(Argument::Frame)?;
    let party = words.party()?;
    words.end()?;
    Ok(Step::Deliver { frame, party })
}

fn read_feed(alloc: Global, mut words: Words<'_>) -> Result<Step, StepFault>
    ensures { JudgesNamed (codes "bytes") words.entry.rest.now result }
{
    let party = words.party()?;
    let bytes = words.bytes(alloc)?;
    words.end()?;
    Ok(Step::Feed { party, bytes })
}

fn read_seal(alloc: Global, mut words: Words<'_>) -> Result<Step, StepFault>
    ensures { JudgesNamed (codes "seal") words.entry.rest.now result }
{
    let sender = words.party()?;
    let receivers = words.parties(alloc)?;
    let body = words.bytes(alloc)?;
    words.end()?;
    Ok(Step::Seal {
        sender,
        receivers,
        body,
    })
}

fn read_sign(alloc: Global, mut words: Words<'_>) -> Result<Step, StepFault>
    ensures { JudgesNamed (codes "sign") words.entry.rest.now result }
{
    let signer = words.party()?;
    let leaf = words.number(Argument::Leaf)?;
    let receivers = words.parties(alloc)?;
    let body = words.bytes(alloc)?;
    words.end()?;
    Ok(Step::Sign {
        signer,
        leaf,
        receivers,
        body,
    })
}

fn read_tick(mut words: Words<'_>) -> Result<Step, StepFault>
    ensures { JudgesNamed (codes "tick") words.entry.rest.now result }
{
    let party = words.party()?;
    words.end()?;
    Ok(Step::Tick { party })
}

fn read_flush(mut words: Words<'_>) -> Result<Step, StepFault>
    ensures { JudgesNamed (codes "flush") words.entry.rest.now result }
{
    words.end()?;
    Ok(Step::Flush)
}
