//! The loop over the lines of a script.

ghost use Rattle.std.specs.Prelude.{◌≡◌, ◌++◌, ◌+◌, [], List, ℕ, Some, IfSome, OnOk, Option};
ghost use Rattle.tuple_codec.specs.OperationView.{operation_of};
ghost use Rattle.tuple_text.specs.Lines.{IsLine};
ghost use Rattle.protocol.specs.System.Configuration.{Configuration};
ghost use Rattle.one_space.specs.NextLines.{NextLineFails};
ghost use Rattle.records.specs.ReaderView.{left_of};
ghost use Rattle.client_process.specs.Serving.{idle, refused_line};
ghost use Rattle.client_process.specs.Endings.{EndsConversing, scene, scene_of};
ghost use Rattle.client_process.specs.Texts.{IsClear, Refuses, Opening, IsAt, BringsLine};
ghost use Rattle.client_process.specs.Texts.{EndsSession, GoesOn, ServesLine};

use crate::caller::Caller;
use crate::fault::ConverseFault;
use crate::process::{Process, write_out};
use crate::timer::Timer;
use one_space::{Complaint, EndsOnce, NextLine, NoLine, next_line, skip_rest};
use records::RecordReader;
use std::alloc::Global;
use std::io::{self, BufRead, BufReader, ErrorKind, Read, Write};
use terms::NoMemory;
use tuple_codec::Op;
use tuple_text::LineFault;

/// Calls the operations of a script's lines, one after another, and writes a line for each: the answer, or `! ` and why
/// the line is refused. A blank line and a comment call nothing, and have no line.
///
/// It reads lines only while no call is open, and records only while one is. It asks for neither before all is written
/// and flushed that is due for what it read. While a call is open, a timer runs: at its end the client asks again.
///
/// # Errors
///
/// NoMemory if memory runs out, and Stopped if the client can make no further call; Unanswered if the records end while
/// a call is open; Read and Write if reading or writing fails. What was due for the inputs before is written, unless
/// writing failed.
pub fn converse<C: Caller + Drop, L: Read + Drop, R: Read + Drop, F: Write, W: Write>(
    alloc: Global,
    client: C,
    script: L,
    records: R,
    frames: &mut F,
    results: &mut W,
) -> Result<(), ConverseFault>
    ensures { (c : Configuration) (start : ℕ) → C.fits client c start []
        → IfSome (L.remaining script) (λ text. IfSome (R.remaining records) (λ bytes.
        EndsConversing c (C.me client) start result text bytes
        (scene_of F.contents W.contents frames.old results.old)
        (scene_of F.contents W.contents frames.new results.new))) }
{
    let mut lines = match BufReader::new(alloc, EndsOnce::new(script)) {
        Ok(lines) => lines,
        Err(_) => return Err(ConverseFault::NoMemory),
    };
    let mut records = RecordReader::new(alloc, records)?;
    let mut process = Process {
        client,
        timer: Timer {
            number: 0,
            milliseconds: 0,
        },
        line: Vec::new(alloc),
        text: Vec::new(alloc),
        told: Vec::new(alloc),
    };
    process.run(alloc, &mut lines, &mut records, frames, results)
}

impl<C: Caller> Process<C> {
    // Serves all lines.
    fn run<B: BufRead, R: Read + Drop, F: Write, W: Write>(
        &mut self,
        alloc: Global,
        lines: &mut B,
        records: &mut RecordReader<R>,
        frames: &mut F,
        results: &mut W,
    ) -> Result<(), ConverseFault>
        requires none_due { IsClear self.old }
        ensures { (o : Opening) → IsAt C.me C.fits o (idle self.old.timer.number) 1
            (B.remaining lines.old) (left_of R.remaining records.old)
            (scene_of F.contents W.contents frames.old results.old) self.old
            → EndsSession result o (scene_of F.contents W.contents frames.new results.new) }
    {
        for number in 1..u64::MAX {
            if !self.serve_line(alloc, number, lines, records, frames, results)? {
                return Ok(());
            }
        }
        Err(ConverseFault::Read(io::Error::from(ErrorKind::Interrupted)))
    }

    // Serves the next line, and gives whether there was one.
    fn serve_line<B: BufRead, R: Read + Drop, F: Write, W: Write>(
        &mut self,
        alloc: Global,
        number: u64,
        lines: &mut B,
        records: &mut RecordReader<R>,
        frames: &mut F,
        results: &mut W,
    ) -> Result<bool, ConverseFault>
        requires none_due { IsClear self.old }
        ensures none_due { OnOk result (IsClear self.new) }
        ensures serves { (o : Opening) → IsAt C.me C.fits o (idle self.old.timer.number) number
            (B.remaining lines.old) (left_of R.remaining records.old)
            (scene_of F.contents W.contents frames.old results.old) self.old
            → ServesLine C.me C.fits result o (idle self.new.timer.number) (number + 1)
            (B.remaining lines.new) (left_of R.remaining records.new)
            (scene_of F.contents W.contents frames.new results.new) self.new }
    {
        match next_line(alloc, lines, &mut self.line) {
            Ok(NextLine::End) => Ok(false),
            Ok(NextLine::Skipped) => Ok(true),
            Ok(NextLine::Operation(op)) => {
                self.answer(alloc, op, records, frames, results)?;
                Ok(true)
            }
            Err(no) => {
                self.pass(alloc, number, no, lines, results)?;
                Ok(true)
            }
        }
    }

    // Calls the operation of a line, and writes its answer.
    fn answer<R: Read + Drop, F: Write, W: Write>(
        &mut self,
        alloc: Global,
        op: Op<Global>,
        records: &mut RecordReader<R>,
        frames: &mut F,
        results: &mut W,
    ) -> Result<(), ConverseFault>
        requires none_due { IsClear self.old }
        ensures none_due { OnOk result (IsClear self.new) }
        ensures answers { (o : Opening) (n : ℕ) (l : List ℕ) (unread rest : Option (List ℕ))
            → BringsLine l unread rest → IsLine (operation_of op) l
            → IsAt C.me C.fits o (idle self.old.timer.number) n unread (left_of R.remaining records.old)
            (scene_of F.contents W.contents frames.old results.old) self.old
            → GoesOn C.me C.fits result o (idle self.new.timer.number) (n + 1) rest
            (left_of R.remaining records.new)
            (scene_of F.contents W.contents frames.new results.new) self.new }
    {
        self.call(alloc, op, records, frames)?;
        write_out(&mut self.told, results)
    }

    // What comes of a line that isn't read. The rest of one that is refused by its first bytes is still to be passed.
    fn pass<B: BufRead, W: Write>(
        &mut self,
        alloc: Global,
        number: u64,
        no: NoLine,
        lines: &mut B,
        results: &mut W,
    ) -> Result<(), ConverseFault>
        requires none_due { IsClear self.old }
        ensures none_due { OnOk result (IsClear self.new) }
        ensures passes { (o : Opening) (xs buffer : List ℕ) (known sent : Option (List ℕ))
            → NextLineFails no xs (B.remaining lines.old) buffer
            → IsAt C.me C.fits o (idle self.old.timer.number) number (Some xs) known
            (scene sent (W.contents results.old)) self.old
            → GoesOn C.me C.fits result o (idle self.new.timer.number) (number + 1)
            (B.remaining lines.new) known (scene sent (W.contents results.new)) self.new }
    {
        match no {
            NoLine::Refused(fault) => self.refuse(alloc, number, fault, results),
            NoLine::RefusedEarly(fault) => {
                self.refuse(alloc, number, fault, results)?;
                Ok(skip_rest(lines)?)
            }
            NoLine::NoMemory => Err(ConverseFault::NoMemory),
            NoLine::Read(error) => Err(ConverseFault::Read(error)),
        }
    }

    // Tells that the line is refused.
    fn refuse<W: Write>(
        &mut self,
        alloc: Global,
        number: u64,
        fault: LineFault,
        results: &mut W,
    ) -> Result<(), ConverseFault>
        requires none_due { IsClear self.old }
        ensures none_due { OnOk result (IsClear self.new) }
        ensures refuses { (o : Opening) (l : List ℕ) (unread rest known sent : Option (List ℕ))
            → BringsLine l unread rest → Refuses fault l
            → IsAt C.me C.fits o (idle self.old.timer.number) number unread known
            (scene sent (W.contents results.old)) self.old
            → GoesOn C.me C.fits result o (idle self.new.timer.number) (number + 1) rest known
            (scene sent (W.contents results.new)) self.new }
    {
        put_refusal(alloc, number, fault, &mut self.told)?;
        write_out(&mut self.told, results)
    }
}

// Appends the line that tells of a refused one.
fn put_refusal(
    alloc: Global,
    number: u64,
    fault: LineFault,
    told: &mut Vec<u8>,
) -> Result<(), NoMemory>
    ensures { OnOk result (told.new.items ≡ told.old.items ++ refused_line number fault) }
{
    let complaint = Complaint::Line { number, fault };
    let said = format!(in alloc; "! {complaint}\n")?;
    Ok(told.extend_from_slice(said.as_bytes())?)
}
