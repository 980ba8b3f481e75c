//! A script: each line is judged, and a number of operations is kept.

ghost use Rattle.std.specs.Prelude.{◌≡◌, ◌+◌, ◌^◌, ◌<◌, ◌≤◌, [], ◌∷◌, length};
ghost use Rattle.std.specs.Io.Buffered.{reader_remaining};
ghost use Rattle.one_space.specs.Complaints.{Says, refusal_line};
ghost use Rattle.one_space.specs.Run.{refusal};
ghost use Rattle.one_space.specs.Scripts.{EndsScript, JudgesScript, KeepsOperation, ReadsScript, ReadsScriptLine};
ghost use Rattle.one_space.specs.Scripts.{TellsRefusal};
ghost use Rattle.one_space.specs.declared.session.LocalFault.TheVariants as LocalFault;

use crate::complaints::Complaint;
use crate::console::Console;
use crate::input::{NextLine, NoLine, has_line, next_line};
use crate::reasons::LineReason;
use crate::session::{LINES_END, LocalFault};
use std::alloc::Global;
use std::io::{BufReader, Read};
use tuple_codec::Op;
use tuple_text::LineFault;

/// Reads the lines of a script, and gives their operations in order. It reads no further than to operation number
/// `most`, so a script without an end takes no more. Lines are numbered from 1 and stay below 2 to the power of 48. The
/// fault has the number of the first refused line, and the console is told of it. Only the result and one line take
/// memory.
pub fn read_script<R: Read + Drop, C: Console>(
    alloc: Global,
    reader: R,
    most: usize,
    console: &mut C,
) -> Result<Vec<Op<Global>>, LocalFault>
    ensures read { JudgesScript most result (R.remaining reader) }
    ensures told { TellsRefusal result (C.said console.old) (C.said console.new) }
{
    let mut input = match BufReader::new(alloc, reader) {
        Ok(input) => input,
        Err(_) => return Err(LocalFault::NoMemory),
    };
    let mut script = Script {
        line: Vec::new(alloc),
        ops: Vec::new(alloc),
    };
    match script.read_lines(alloc, &mut input, most, console) {
        Ok(()) => Ok(script.ops),
        Err(fault) => Err(fault),
    }
}

// The operations of the lines that were read, and room for a line.
#[derive(Drop)]
struct Script {
    line: Vec<u8>,
    ops: Vec<Op<Global>>,
}

impl Script {
    fn read_lines<R: Read, C: Console>(
        &mut self,
        alloc: Global,
        reader: &mut BufReader<R>,
        most: usize,
        console: &mut C,
    ) -> Result<(), LocalFault>
        requires none { self.old.ops.items ≡ [] }
        ensures read { ReadsScript most result (reader_remaining R.remaining reader.old) self.new.ops }
        ensures told { TellsRefusal result (C.said console.old) (C.said console.new) }
    {
        for number in 1..LINES_END {
            if self.ops.len() >= most {
                return Ok(());
            }
            match self.read_line(alloc, number, most, reader, console) {
                Ok(true) => {}
                Ok(false) => return Ok(()),
                Err(fault) => return Err(fault),
            }
        }
        self.end_lines(reader, console)
    }

    // Reads the next line, and gives whether there was one. Fewer than `most` operations are kept.
    fn read_line<R: Read, C: Console>(
        &mut self,
        alloc: Global,
        number: u64,
        most: usize,
        reader: &mut BufReader<R>,
        console: &mut C,
    ) -> Result<bool, LocalFault>
        requires early { number < 2 ^ 48 }
        requires room { length self.old.ops.items < most }
        ensures read { ReadsScriptLine most result number
            (reader_remaining R.remaining reader.old) self.old.ops
            (reader_remaining R.remaining reader.new) self.new.ops }
        ensures told { TellsRefusal result (C.said console.old) (C.said console.new) }
    {
        match next_line(alloc, reader, &mut self.line) {
            Ok(NextLine::End) => Ok(false),
            Ok(NextLine::Skipped) => Ok(true),
            Ok(NextLine::Operation(op)) => self.keep(op),
            Err(NoLine::Refused(fault)) => {
                Err(refused_line(number, fault, self.line.as_slice(), console))
            }
            Err(NoLine::RefusedEarly(fault)) => {
                Err(refused_line(number, fault, self.line.as_slice(), console))
            }
            Err(NoLine::NoMemory) => Err(LocalFault::NoMemory),
            Err(NoLine::Read(error)) => Err(LocalFault::Read(error)),
        }
    }

    fn keep(&mut self, op: Op<Global>) -> Result<bool, LocalFault>
        ensures { KeepsOperation result op self.old.ops self.new.ops }
    {
        match self.ops.push(op) {
            Ok(()) => Ok(true),
            Err(_) => Err(LocalFault::NoMemory),
        }
    }

    // After the last possible line no line is left, or the script is refused.
    fn end_lines<R: Read, C: Console>(
        &mut self,
        reader: &mut BufReader<R>,
        console: &mut C,
    ) -> Result<(), LocalFault>
        ensures read { EndsScript result (reader_remaining R.remaining reader.old) self.old.ops self.new.ops }
        ensures told { TellsRefusal result (C.said console.old) (C.said console.new) }
    {
        match has_line(reader, &mut self.line) {
            Ok(false) => Ok(()),
            Ok(true) => Err(refused_line(LINES_END, LineFault::TooLong, &[], console)),
            Err(fault) => Err(LocalFault::from(fault)),
        }
    }
}

// Tells that the line is refused, and gives the fault.
fn refused_line<C: Console>(
    number: u64,
    fault: LineFault,
    line: &[u8],
    console: &mut C,
) -> LocalFault
    ensures fault { result ≡ LocalFault.Refused number fault }
    ensures told { Says (C.said console.old) (C.said console.new) (refusal_line (refusal number fault) ∷ []) }
{
    let reason = LineReason {
        number,
        fault,
        line,
    };
    console.say(Complaint::Line { number, fault }, reason);
    LocalFault::Refused {
        line: number,
        fault,
    }
}
