//! The steps of a schedule.

ghost use Rattle.std.specs.Prelude.{◌≡◌, vec_len};

use crate::lines::{NextLine, NoLine, next_line};
use one_space::ReadFault;
use schedule_text::{Reason, Step};
use std::alloc::Global;
use std::io::{BufReader, Read};
use terms::NoMemory;
use thiserror::Error;

// The number of the first line that is one too many.
const LINES_END: u64 = 1 << 48;

/// Why a line is none of a step.
#[derive(Clone, Copy, Debug, Error)]
pub enum LineRefusal {
    /// It is the text of no step, which its byte of this place, from 0, shows.
    #[error("byte {byte}: {reason}")]
    NoStep { byte: u64, reason: Reason },
    /// Lines have no greater numbers.
    #[error("there are too many lines")]
    LastLine,
}

/// A line that is none of a step.
#[derive(Clone, Copy, Drop)]
pub struct RefusedLine {
    /// From 1.
    pub number: u64,
    pub reason: LineRefusal,
}

/// The steps of a schedule up to the first line that is none, with the numbers of their lines.
#[derive(Drop)]
pub struct Schedule {
    pub steps: Vec<Step>,
    pub numbers: Vec<u64>,
    pub refused: Option<RefusedLine>,
    ghost same: { vec_len numbers ≡ vec_len steps },
}

impl Schedule {
    ghost use Rattle.std.specs.Prelude.{◌≡◌, ◌∷◌, ◌++◌, ◌^◌, ◌<◌, [], None, IfSome, IfOk, OnOk};
    ghost use Rattle.std.specs.Io.Buffered.{reader_remaining};
    ghost use Rattle.schedule_lines.specs.Schedules.{IsRead};
    ghost use Rattle.schedule_lines.specs.declared.reading.LineRefusal.TheVariants.{LastLine};
    ghost use Rattle.schedule_lines.specs.Reading.{EndsLines, IsUnread, KeepsStep, ReadsStepLine, RefusesAt};

    /// Reads the lines up to one that is none. Nothing is kept of those that are no steps.
    pub fn read<R: Read + Drop>(alloc: Global, reader: R) -> Result<Schedule, ReadFault>
        ensures { IfSome (R.remaining reader) (λ bytes. IfOk result (IsRead bytes)) }
    {
        let mut input = match BufReader::new(alloc, reader) {
            Ok(input) => input,
            Err(_) => return Err(ReadFault::NoMemory),
        };
        let mut schedule = Schedule::new(alloc);
        match schedule.read_lines(alloc, &mut input) {
            Ok(()) => Ok(schedule),
            Err(fault) => Err(fault),
        }
    }

    fn new(alloc: Global) -> Schedule
        ensures { IsUnread result }
    {
        Schedule {
            steps: Vec::new(alloc),
            numbers: Vec::new(alloc),
            refused: None,
        }
    }

    fn read_lines<R: Read>(
        &mut self,
        alloc: Global,
        reader: &mut BufReader<R>,
    ) -> Result<(), ReadFault>
        requires { IsUnread self.old }
        ensures { IfSome (reader_remaining R.remaining reader.old)
            (λ bytes. OnOk result (IsRead bytes self.new)) }
    {
        let mut line = Vec::new(alloc);
        for number in 1..LINES_END {
            match self.read_line(alloc, number, reader, &mut line) {
                Ok(true) => {}
                Ok(false) => return Ok(()),
                Err(fault) => return Err(fault),
            }
        }
        self.end_lines(alloc, reader, &mut line)
    }

    // Reads the next line, and gives whether the lines go on.
    fn read_line<R: Read>(
        &mut self,
        alloc: Global,
        number: u64,
        reader: &mut BufReader<R>,
        line: &mut Vec<u8>,
    ) -> Result<bool, ReadFault>
        requires early { number < 2 ^ 48 }
        ensures { ReadsStepLine result number
            (reader_remaining R.remaining reader.old) self.old
            (reader_remaining R.remaining reader.new) self.new }
    {
        match next_line(alloc, reader, line) {
            Ok(NextLine::End) => Ok(false),
            Ok(NextLine::Skipped) => Ok(true),
            Ok(NextLine::Step(step)) => match self.keep(step, number) {
                Ok(()) => Ok(true),
                Err(NoMemory) => Err(ReadFault::NoMemory),
            },
            Err(NoLine::Refused { byte, reason }) => {
                self.refuse(number, LineRefusal::NoStep { byte, reason });
                Ok(false)
            }
            Err(NoLine::NoMemory) => Err(ReadFault::NoMemory),
            Err(NoLine::Read(error)) => Err(ReadFault::Read(error)),
        }
    }

    // After the last possible line no line is left, or it is refused.
    fn end_lines<R: Read>(
        &mut self,
        alloc: Global,
        reader: &mut BufReader<R>,
        line: &mut Vec<u8>,
    ) -> Result<(), ReadFault>
        ensures { EndsLines result (reader_remaining R.remaining reader.old) self.old self.new }
    {
        match next_line(alloc, reader, line) {
            Ok(NextLine::End) => Ok(()),
            Ok(NextLine::Skipped) => {
                self.refuse_last();
                Ok(())
            }
            Ok(NextLine::Step(_step)) => {
                self.refuse_last();
                Ok(())
            }
            Err(NoLine::Refused { .. }) => {
                self.refuse_last();
                Ok(())
            }
            Err(NoLine::NoMemory) => Err(ReadFault::NoMemory),
            Err(NoLine::Read(error)) => Err(ReadFault::Read(error)),
        }
    }

    fn refuse_last(&mut self)
        ensures { RefusesAt (2 ^ 48) LastLine self.old self.new }
    {
        self.refuse(LINES_END, LineRefusal::LastLine);
    }

    fn keep(&mut self, step: Step, number: u64) -> Result<(), NoMemory>
        ensures { OnOk result (KeepsStep step number self.old self.new) }
    {
        self.numbers.reserve(1)?;
        self.steps.push(step)?;
        self.numbers.push_reserved(number);
        Ok(())
    }

    fn refuse(&mut self, number: u64, reason: LineRefusal)
        ensures { RefusesAt number reason self.old self.new }
    {
        self.refused = Some(RefusedLine { number, reason });
    }
}
