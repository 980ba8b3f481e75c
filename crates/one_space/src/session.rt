//! A script on a space of its own.

ghost use Rattle.std.specs.Prelude.{◌≡◌, ◌++◌, ◌+◌, ◌^◌, ◌<◌, ◌≤◌, ◌*◌, ℕ, List, [], ◌∷◌, Option, Some, OnOk, OnErr};
ghost use Rattle.std.specs.Prelude.{IfErr, IfSome};
ghost use Rattle.std.specs.Io.Buffered.{reader_buffer, reader_remaining};
ghost use Rattle.memchr.specs.Find.{IsFirstByte, is_byte};
ghost use Rattle.tuple_codec.specs.OperationView.{operation_of};
ghost use Rattle.tuple_codec.specs.Operations.{found, absent};
ghost use Rattle.tuple_text.specs.Written.{WritesText};
ghost use Rattle.space.specs.Births.{StateFollows, TuplesFollow, empty_in};
ghost use Rattle.one_space.specs.Endings.{EndsKnown, EndsStrict, HeldForLine, IsWriteFault, scene_of};
ghost use Rattle.one_space.specs.Moments.{AddsResult, EndsAll, EndsLate, EndsLines, EndsSome, Passes, PassesEarly};
ghost use Rattle.one_space.specs.Moments.{PassesRead};
ghost use Rattle.one_space.specs.Moments.{RefusesSo, RunsLine, RunsOperation, TellsLine, WritesAll, WritesDue, left_of};
ghost use Rattle.one_space.specs.NextLines.{IsNextLine};
ghost use Rattle.one_space.specs.Run.{result_line};

use crate::complaints::Complaint;
use crate::console::{Console, Unheard};
use crate::help::is_help;
use crate::input::{NextLine, NoLine, has_line, next_line, skip_rest};
use crate::once::EndsOnce;
use crate::pieces::{ReadFault, without_return};
use crate::reasons::LineReason;
use bumpalo::Bump;
use memchr::memchr;
use space::{Seen, Space, Version};
use std::alloc::{Allocator, Global};
use std::io::{self, BufRead, BufReader, Read, Write};
use terms::NoMemory;
use thiserror::Error;
use tuple_codec::Op;
use tuple_text::{LineFault, read_line, write_answer, write_tuple};
use tuple_tree::Tuple;

/// The number of the first line that is one too many.
pub const LINES_END: u64 = 1 << 48;

// Most bytes of results that are held back, apart from those of one line.
const HELD: usize = 8192;

/// What a run does at a refused line.
#[derive(Clone, Copy, Debug, PartialEq, Eq)]
pub enum Manner {
    /// It ends there.
    Strict,
    /// It goes on after the line.
    KeepsGoing,
    /// It goes on, and a line `help` asks for help in place of being refused.
    Talks,
}

/// How a script is run: on a space of this version, and in this manner.
#[derive(Clone, Copy, Debug, PartialEq, Eq)]
pub struct Rules {
    pub version: Version,
    pub manner: Manner,
}

/// The end of a script's run.
#[derive(Drop)]
pub struct Ended {
    /// The space as the script left it. A command that ends may forget it: giving back each tuple takes long.
    pub space: Space,
    /// How many lines were refused.
    pub refused: u64,
}

/// Why a run stopped before the script's end.
#[derive(Debug, Drop, Error)]
pub enum LocalFault {
    /// The line of this number, from 1, is refused.
    #[error("line {line}: {fault}")]
    Refused { line: u64, fault: LineFault },
    #[error("out of memory")]
    NoMemory,
    #[error("{0}")]
    Read(io::Error),
    #[error("not written: {0}")]
    Write(io::Error),
}

impl From<NoMemory> for LocalFault {
    ghost use Rattle.std.specs.Prelude.{◌≡◌};
    ghost use Rattle.one_space.specs.declared.session.LocalFault.TheVariants.{NoMemory};

    ghost from_gives = { λ _ fault. fault ≡ NoMemory };

    fn from(_failed: NoMemory) -> LocalFault {
        LocalFault::NoMemory
    }
}

impl From<ReadFault> for LocalFault {
    ghost use Rattle.std.specs.Prelude.{◌≡◌};
    ghost use Rattle.one_space.specs.Endings.{read_fault_of};

    ghost from_gives = { λ fault local. local ≡ read_fault_of fault };

    fn from(fault: ReadFault) -> LocalFault {
        match fault {
            ReadFault::NoMemory => LocalFault::NoMemory,
            ReadFault::Read(error) => LocalFault::Read(error),
        }
    }
}

/// Runs the lines of a script on a space of its own, and writes the results as it goes, a line each. It asks the
/// reader for more bytes only after it wrote and flushed the results of all whole lines it has, and for none after the
/// end. Lines are numbered from 1 and stay below 2 to the power of 48. The console is told each refused line, after the
/// results of the lines before it. At a fault these results are written, unless writing failed.
pub fn run_lines<R: Read + Drop, W: Write, C: Console>(
    alloc: Global,
    rules: Rules,
    reader: R,
    writer: &mut W,
    console: &mut C,
) -> Result<Ended, LocalFault>
    ensures { EndsKnown result rules (R.remaining reader)
        (scene_of W.contents C.said writer.old console.old)
        (scene_of W.contents C.said writer.new console.new) }
{
    let mut session = Session {
        space: new_space(alloc, rules.version),
        line: Vec::new(alloc),
        held: Held {
            results: Vec::new(alloc),
            refused: 0,
        },
    };
    match session.run(alloc, rules.manner, reader, writer, console) {
        Ok(()) => Ok(Ended {
            space: session.space,
            refused: session.held.refused,
        }),
        Err(fault) => Err(fault),
    }
}

/// The same for a space of this version. The run ends at the first refused line, and gives the space as the script left
/// it.
pub fn local<R: Read + Drop, W: Write>(
    alloc: Global,
    version: Version,
    reader: R,
    writer: &mut W,
) -> Result<Space, LocalFault>
    ensures { EndsStrict result version (R.remaining reader) (W.contents writer.old) (W.contents writer.new) }
{
    let rules = Rules {
        version,
        manner: Manner::Strict,
    };
    match run_lines(alloc, rules, reader, writer, &mut Unheard) {
        Ok(ended) => Ok(ended.space),
        Err(fault) => Err(fault),
    }
}

// The empty space of this version.
fn new_space(alloc: Global, version: Version) -> Space
    ensures { result ≡ empty_in version }
{
    match version {
        Version::One => Space::new(alloc),
        Version::Two => Space::new_v2(alloc),
    }
}

// A run between two of its lines: its space, room for a line, and what it still holds.
#[derive(Drop)]
struct Session {
    space: Space,
    line: Vec<u8>,
    held: Held,
}

// The result lines that are not written yet, and how many lines were refused.
#[derive(Drop)]
struct Held {
    results: Vec<u8>,
    refused: u64,
}

// The line that is run: its number, and the manner of the run.
#[derive(Clone, Copy)]
struct Turn {
    number: u64,
    manner: Manner,
}

impl Session {
    // Runs all lines, and writes the results that are left at the end or at a fault.
    fn run<R: Read + Drop, W: Write, C: Console>(
        &mut self,
        alloc: Global,
        manner: Manner,
        reader: R,
        writer: &mut W,
        console: &mut C,
    ) -> Result<(), LocalFault>
        requires no_births { self.old.space.next ≡ 0 }
        requires no_results { self.old.held.results.items ≡ [] }
        requires no_refusals { self.old.held.refused ≡ 0 }
        ensures { EndsAll result manner self.old.space (R.remaining reader)
            (scene_of W.contents C.said writer.old console.old)
            (scene_of W.contents C.said writer.new console.new) (left_of self.new) }
    {
        let mut input = match BufReader::new(alloc, EndsOnce::new(reader)) {
            Ok(input) => input,
            Err(_) => return Err(LocalFault::NoMemory),
        };
        let mut arena = Bump::new(alloc);
        match self.run_lines(alloc, manner, &mut input, writer, console, &mut arena) {
            Ok(()) => write_out(&mut self.held.results, writer),
            Err(LocalFault::Write(error)) => Err(LocalFault::Write(error)),
            Err(fault) => match write_out(&mut self.held.results, writer) {
                Ok(()) => Err(fault),
                Err(error) => Err(error),
            },
        }
    }

    fn run_lines<R: Read, W: Write, C: Console>(
        &mut self,
        alloc: Global,
        manner: Manner,
        reader: &mut BufReader<R>,
        writer: &mut W,
        console: &mut C,
        arena: &mut Bump,
    ) -> Result<(), LocalFault>
        requires no_births { self.old.space.next ≡ 0 }
        requires no_results { self.old.held.results.items ≡ [] }
        requires no_refusals { self.old.held.refused ≡ 0 }
        ensures { EndsSome result manner self.old.space (reader_remaining R.remaining reader.old)
            (scene_of W.contents C.said writer.old console.old)
            (scene_of W.contents C.said writer.new console.new) (left_of self.new) }
    {
        for number in 1..LINES_END {
            let turn = Turn { number, manner };
            match self.run_line(alloc, turn, reader, writer, console, arena) {
                Ok(true) => {}
                Ok(false) => return Ok(()),
                Err(fault) => return Err(fault),
            }
        }
        self.end_lines(manner, reader, writer, console)
    }

    // Runs the next line, and gives whether there was one.
    fn run_line<R: Read, W: Write, C: Console>(
        &mut self,
        alloc: Global,
        turn: Turn,
        reader: &mut BufReader<R>,
        writer: &mut W,
        console: &mut C,
        arena: &mut Bump,
    ) -> Result<bool, LocalFault>
        requires early { turn.number < 2 ^ 48 }
        requires births { self.old.space.next < 2 ^ 62 }
        ensures births { OnOk result (self.new.space.next ≤ self.old.space.next + 257) }
        ensures along { RunsLine result turn
            (reader_remaining R.remaining reader.old) (scene_of W.contents C.said writer.old console.old) (left_of self.old)
            (reader_remaining R.remaining reader.new) (scene_of W.contents C.said writer.new console.new) (left_of self.new) }
    {
        let place = memchr(b'\n', reader.buffer());
        if let Err(fault) = write_due(&mut self.held.results, reader.buffer(), place, writer) {
            return Err(fault);
        }
        let answered = self.answer_line(turn, reader, place, writer, console, arena);
        free(alloc, arena);
        answered
    }

    // Reads the next line into the arena and adds its result, and gives whether there was one. `place` is the line
    // feed's, if the line is whole at hand.
    fn answer_line<R: Read, W: Write, C: Console>(
        &mut self,
        turn: Turn,
        reader: &mut BufReader<R>,
        place: Option<usize>,
        writer: &mut W,
        console: &mut C,
        arena: &Bump,
    ) -> Result<bool, LocalFault>
        requires place { IsFirstByte (is_byte 10) (reader_buffer reader.old) place }
        requires early { turn.number < 2 ^ 48 }
        requires births { self.old.space.next < 2 ^ 62 }
        requires none_waits { HeldForLine (reader_buffer reader.old) self.old.held.results.items }
        ensures births { OnOk result (self.new.space.next ≤ self.old.space.next + 257) }
        ensures along { RunsLine result turn
            (reader_remaining R.remaining reader.old) (scene_of W.contents C.said writer.old console.old) (left_of self.old)
            (reader_remaining R.remaining reader.new) (scene_of W.contents C.said writer.new console.new) (left_of self.new) }
    {
        match place {
            Some(place) => self.answer_at_hand(turn, reader, place, writer, console, arena),
            None => {
                console.ask();
                self.answer_read(turn, reader, writer, console, arena)
            }
        }
    }

    // The same of a line that is read first. Apart, so that a line at hand takes no room for it.
    #[inline(never)]
    fn answer_read<R: Read, W: Write, C: Console>(
        &mut self,
        turn: Turn,
        reader: &mut BufReader<R>,
        writer: &mut W,
        console: &mut C,
        arena: &Bump,
    ) -> Result<bool, LocalFault>
        requires early { turn.number < 2 ^ 48 }
        requires births { self.old.space.next < 2 ^ 62 }
        ensures births { OnOk result (self.new.space.next ≤ self.old.space.next + 257) }
        ensures along { RunsLine result turn
            (reader_remaining R.remaining reader.old) (scene_of W.contents C.said writer.old console.old) (left_of self.old)
            (reader_remaining R.remaining reader.new) (scene_of W.contents C.said writer.new console.new) (left_of self.new) }
    {
        match next_line(arena, reader, &mut self.line) {
            Ok(NextLine::End) => Ok(false),
            Ok(NextLine::Skipped) => Ok(true),
            Ok(NextLine::Operation(op)) => self.run_op(&op),
            Err(no) => {
                let line = self.line.as_slice();
                self.held.pass_read(turn, no, line, reader, writer, console)
            }
        }
    }

    // The same of the line whose line feed is at this place of the bytes at hand.
    #[inline(always)]
    fn answer_at_hand<R: Read, W: Write, C: Console>(
        &mut self,
        turn: Turn,
        reader: &mut BufReader<R>,
        place: usize,
        writer: &mut W,
        console: &mut C,
        arena: &Bump,
    ) -> Result<bool, LocalFault>
        requires place { IsFirstByte (is_byte 10) (reader_buffer reader.old) (Some place) }
        requires early { turn.number < 2 ^ 48 }
        requires births { self.old.space.next < 2 ^ 62 }
        ensures births { OnOk result (self.new.space.next ≤ self.old.space.next + 257) }
        ensures along { RunsLine result turn
            (reader_remaining R.remaining reader.old) (scene_of W.contents C.said writer.old console.old) (left_of self.old)
            (reader_remaining R.remaining reader.new) (scene_of W.contents C.said writer.new console.new) (left_of self.new) }
    {
        let (line, _) = reader.buffer().split_at(place);
        let answered = self.answer_whole(turn, without_return(line), writer, console, arena);
        reader.consume(place + 1);
        answered
    }

    // The same of a line that lies somewhere without its end. Its operation is applied where it was read, so that it is
    // never moved.
    #[inline(always)]
    fn answer_whole<W: Write, C: Console>(
        &mut self,
        turn: Turn,
        line: &[u8],
        writer: &mut W,
        console: &mut C,
        arena: &Bump,
    ) -> Result<bool, LocalFault>
        requires early { turn.number < 2 ^ 48 }
        requires births { self.old.space.next < 2 ^ 62 }
        ensures births { OnOk result (self.new.space.next ≤ self.old.space.next + 257) }
        ensures along { (unread rest : Option (List ℕ)) → IfSome unread (λ xs. IsNextLine line.now xs rest)
            → RunsLine result turn
            unread (scene_of W.contents C.said writer.old console.old) (left_of self.old)
            rest (scene_of W.contents C.said writer.new console.new) (left_of self.new) }
    {
        match read_line(arena, line) {
            Ok(Some(op)) => self.run_op(&op),
            Ok(None) => Ok(true),
            Err(LineFault::NoMemory) => Err(LocalFault::NoMemory),
            Err(fault) => self.held.pass(turn, fault, line, writer, console),
        }
    }

    // Applies the operation of a line, and adds its result.
    #[inline(always)]
    fn run_op<A: Allocator>(&mut self, op: &Op<A>) -> Result<bool, LocalFault>
        requires births { self.old.space.next < 2 ^ 62 }
        ensures births { OnOk result (self.new.space.next ≤ self.old.space.next + 257) }
        ensures runs { RunsOperation result (operation_of op.now) (left_of self.old) (left_of self.new) }
    {
        match answer(&mut self.space, op, &mut self.held.results) {
            Ok(()) => Ok(true),
            Err(_) => Err(LocalFault::NoMemory),
        }
    }

    // After the last possible line no line is left, or the run is refused.
    fn end_lines<R: Read, W: Write, C: Console>(
        &mut self,
        manner: Manner,
        reader: &mut BufReader<R>,
        writer: &mut W,
        console: &mut C,
    ) -> Result<(), LocalFault>
        ensures { EndsLines result manner
            (reader_remaining R.remaining reader.old) (scene_of W.contents C.said writer.old console.old) (left_of self.old)
            (scene_of W.contents C.said writer.new console.new) (left_of self.new) }
    {
        let place = memchr(b'\n', reader.buffer());
        if let Err(fault) = write_due(&mut self.held.results, reader.buffer(), place, writer) {
            return Err(fault);
        }
        match has_line(reader, &mut self.line) {
            Ok(false) => Ok(()),
            Ok(true) => Err(self.held.refuse_late(writer, console)),
            Err(fault) => Err(LocalFault::from(fault)),
        }
    }
}

impl Held {
    // What comes of a line that isn't read. The rest of one that is refused by its first bytes is still to be passed.
    fn pass_read<R: Read, W: Write, C: Console>(
        &mut self,
        turn: Turn,
        no: NoLine,
        line: &[u8],
        reader: &mut BufReader<R>,
        writer: &mut W,
        console: &mut C,
    ) -> Result<bool, LocalFault>
        ensures { PassesRead result turn no line.now
            (reader_remaining R.remaining reader.old) (reader_remaining R.remaining reader.new)
            (scene_of W.contents C.said writer.old console.old)
            (scene_of W.contents C.said writer.new console.new) self.old self.new }
    {
        match no {
            NoLine::Refused(fault) => self.pass(turn, fault, line, writer, console),
            NoLine::RefusedEarly(fault) => {
                self.refuse_early(turn, fault, line, reader, writer, console)
            }
            NoLine::NoMemory => Err(LocalFault::NoMemory),
            NoLine::Read(error) => Err(LocalFault::Read(error)),
        }
    }

    // What comes of a refused line. Where someone talks, it may ask for help.
    #[inline(never)]
    fn pass<W: Write, C: Console>(
        &mut self,
        turn: Turn,
        fault: LineFault,
        line: &[u8],
        writer: &mut W,
        console: &mut C,
    ) -> Result<bool, LocalFault>
        ensures { Passes result turn fault line.now
            (scene_of W.contents C.said writer.old console.old)
            (scene_of W.contents C.said writer.new console.new) self.old self.new }
    {
        if turn.manner == Manner::Talks && is_help(line) {
            write_out(&mut self.results, writer)?;
            console.help();
            return Ok(true);
        }
        self.refuse(turn, fault, line, writer, console)?;
        Ok(true)
    }

    fn refuse_early<R: Read, W: Write, C: Console>(
        &mut self,
        turn: Turn,
        fault: LineFault,
        line: &[u8],
        reader: &mut BufReader<R>,
        writer: &mut W,
        console: &mut C,
    ) -> Result<bool, LocalFault>
        ensures { PassesEarly result turn fault
            (reader_remaining R.remaining reader.old) (reader_remaining R.remaining reader.new)
            (scene_of W.contents C.said writer.old console.old)
            (scene_of W.contents C.said writer.new console.new) self.old self.new }
    {
        self.refuse(turn, fault, line, writer, console)?;
        skip_rest(reader)?;
        Ok(true)
    }

    // Tells that the line is refused. A strict run ends there.
    fn refuse<W: Write, C: Console>(
        &mut self,
        turn: Turn,
        fault: LineFault,
        line: &[u8],
        writer: &mut W,
        console: &mut C,
    ) -> Result<(), LocalFault>
        ensures { RefusesSo result turn fault
            (scene_of W.contents C.said writer.old console.old)
            (scene_of W.contents C.said writer.new console.new) self.old self.new }
    {
        self.tell(turn.number, fault, line, writer, console)?;
        match turn.manner {
            Manner::Strict => Err(LocalFault::Refused {
                line: turn.number,
                fault,
            }),
            Manner::KeepsGoing | Manner::Talks => Ok(()),
        }
    }

    // The first line that is one too many ends the run, whatever its manner.
    fn refuse_late<W: Write, C: Console>(&mut self, writer: &mut W, console: &mut C) -> LocalFault
        ensures { EndsLate result
            (scene_of W.contents C.said writer.old console.old)
            (scene_of W.contents C.said writer.new console.new) self.old self.new }
    {
        let fault = LineFault::TooLong;
        match self.tell(LINES_END, fault, &[], writer, console) {
            Ok(()) => LocalFault::Refused {
                line: LINES_END,
                fault,
            },
            Err(unwritten) => unwritten,
        }
    }

    // Writes the results of the lines before, and tells that the line is refused.
    fn tell<W: Write, C: Console>(
        &mut self,
        number: u64,
        fault: LineFault,
        line: &[u8],
        writer: &mut W,
        console: &mut C,
    ) -> Result<(), LocalFault>
        ensures told { OnOk result (TellsLine number fault
            (scene_of W.contents C.said writer.old console.old)
            (scene_of W.contents C.said writer.new console.new) self.old self.new) }
        ensures err { IfErr result IsWriteFault }
    {
        write_out(&mut self.results, writer)?;
        let reason = LineReason {
            number,
            fault,
            line,
        };
        console.say(Complaint::Line { number, fault }, reason);
        self.refused = self.refused.saturating_add(1);
        Ok(())
    }
}

// Frees the memory of a line's operation, which is gone. If something is left in the arena, a new one replaces it.
fn free(alloc: Global, arena: &mut Bump) {
    if arena.reset().is_err() {
        *arena = Bump::new(alloc);
    }
}

// Applies the operation as client 0's and adds the result line. An error leaves the results as they were.
fn answer<A: Allocator>(
    space: &mut Space,
    op: &Op<A>,
    results: &mut Vec<u8>,
) -> Result<(), NoMemory>
    requires { space.old.next < 2 ^ 62 }
    ensures state { OnOk result (StateFollows space.old space.new 0 (operation_of op.now)) }
    ensures tuples { OnOk result (TuplesFollow space.old space.new 0 (operation_of op.now)) }
    ensures ok { OnOk result (AddsResult op.now space.old results.old results.new) }
    ensures err { OnErr result (results.new.items ≡ results.old.items) }
{
    // What a read of one tuple finds is written where it lies, without a copy.
    if let Op::Rdp(_) = op {
        match space.look(op) {
            Ok(Seen::Found(tuple)) => return add_found(tuple, results),
            Ok(Seen::Absent) => return add_absent(results),
            _ => {}
        }
    }
    let old_len = results.len();
    let given = space.apply(0, op)?;
    write_answer(&given, results)?;
    if results.push(b'\n').is_err() {
        results.truncate(old_len);
        return Err(NoMemory);
    }
    Ok(())
}

// Adds the result line of a tuple that was found. An error leaves the results as they were.
fn add_found(tuple: &Tuple<Global>, results: &mut Vec<u8>) -> Result<(), NoMemory>
    ensures ok { OnOk result (results.new.items
        ≡ results.old.items ++ result_line (found tuple.now)) }
    ensures err { OnErr result (results.new.items ≡ results.old.items) }
{
    let old_len = results.len();
    match put_found(tuple, results) {
        Ok(()) => Ok(()),
        Err(error) => {
            results.truncate(old_len);
            Err(error)
        }
    }
}

fn add_absent(results: &mut Vec<u8>) -> Result<(), NoMemory>
    ensures ok { OnOk result (results.new.items ≡ results.old.items ++ result_line absent) }
    ensures err { OnErr result (results.new.items ≡ results.old.items) }
{
    Ok(results.extend_from_slice(b"absent\n")?)
}

fn put_found(tuple: &Tuple<Global>, results: &mut Vec<u8>) -> Result<(), NoMemory>
    ensures { WritesText result results.old.items (result_line (found tuple.now)) results.new.items }
{
    results.extend_from_slice(b"found ")?;
    write_tuple(tuple, results)?;
    Ok(results.extend_from_slice(b"\n")?)
}

// Writes the held results if there are many, or if the next line isn't whole at hand. The reader may then wait for
// that line, and its sender may wait for the results.
fn write_due<W: Write>(
    results: &mut Vec<u8>,
    at_hand: &[u8],
    place: Option<usize>,
    writer: &mut W,
) -> Result<(), LocalFault>
    requires { IsFirstByte (is_byte 10) at_hand.now place }
    ensures held { OnOk result (HeldForLine at_hand.now results.new.items) }
    ensures results { WritesDue W.contents result writer.old writer.new results.old results.new }
    ensures err { IfErr result IsWriteFault }
{
    if results.is_empty() {
        return Ok(());
    }
    if results.len() < HELD && place.is_some() {
        return Ok(());
    }
    write_out(results, writer)
}

// Writes the results and leaves none.
fn write_out<W: Write>(results: &mut Vec<u8>, writer: &mut W) -> Result<(), LocalFault>
    ensures written { WritesAll W.contents result writer.old writer.new results.old.items }
    ensures none { OnOk result (results.new.items ≡ []) }
    ensures err { IfErr result IsWriteFault }
{
    if let Err(error) = writer.write_all(results.as_slice()) {
        return Err(LocalFault::Write(error));
    }
    if let Err(error) = writer.flush() {
        return Err(LocalFault::Write(error));
    }
    results.clear();
    Ok(())
}
