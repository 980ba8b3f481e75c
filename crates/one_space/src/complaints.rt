//! The complaints on standard error about runs that didn't end well, and their statuses.

ghost use Rattle.std.specs.Prelude.{◌≡◌};
ghost use Rattle.one_space.specs.Refusals.{line_refusal};
ghost use Rattle.one_space.specs.Complaints.{status_of, OfOpen, OfShow, OfWrite};

use crate::digits::ShowFault;
use std::{fmt, io};
use tuple_text::LineFault;

// The number of the refusal of bytes that spell no tuple.
const MALFORMED: u8 = 5;

// The number of the refusal of a step that may not come at its place, and that of a configuration.
const BAD_STEP: u8 = 23;

const BAD_CONFIGURATION: u8 = 25;

/// The number, from 1, of the refusal of a line.
pub fn line_refusal(fault: LineFault) -> u8
    ensures { result ≡ line_refusal fault }
{
    match fault {
        LineFault::TooManyFields => 1,
        LineFault::TooDeep => 2,
        LineFault::TooLong => 3,
        LineFault::NoMemory => 4,
        LineFault::BadByte { .. } => 6,
    }
}

/// A complaint on standard error about a run that didn't end well, by its first line.
#[derive(Clone, Copy, Debug)]
pub enum Complaint<'a> {
    /// The line of this number, from 1, is refused.
    Line { number: u64, fault: LineFault },
    /// The digits spell no tuple.
    Malformed,
    /// The step of this line, from 1, may not come.
    Step { line: u64 },
    /// The file is no configuration.
    Configuration,
    /// The file can't be opened, or not be read to its end.
    Unreadable { path: &'a str },
    /// Memory ran out, or an output can't be written.
    Stopped,
    /// Nobody reads the output any more. Nothing is said.
    OutputClosed,
}

impl<'a> Complaint<'a> {
    /// The complaint about a file that can't be opened.
    pub fn of_open(error: &io::Error, path: &'a str) -> Complaint<'a>
        ensures { OfOpen error.now path.now result }
    {
        if error.kind() == io::ErrorKind::OutOfMemory {
            Complaint::Stopped
        } else {
            Complaint::Unreadable { path }
        }
    }

    /// The complaint about an output that can't be written.
    pub fn of_write(error: &io::Error) -> Complaint<'a>
        ensures { OfWrite error.now result }
    {
        if error.kind() == io::ErrorKind::BrokenPipe {
            Complaint::OutputClosed
        } else {
            Complaint::Stopped
        }
    }

    pub fn of_show(fault: &ShowFault) -> Complaint<'a>
        ensures { OfShow fault.now result }
    {
        match fault {
            ShowFault::Malformed(_) => Complaint::Malformed,
            ShowFault::NoMemory => Complaint::Stopped,
            ShowFault::Write(error) => Complaint::of_write(error),
        }
    }

    /// The status that the program ends with: 1 for refused or unreadable input, 3 if it was stopped.
    pub fn status(&self) -> u8
        ensures { result ≡ status_of self.now }
    {
        match self {
            Complaint::Line { .. }
            | Complaint::Malformed
            | Complaint::Step { .. }
            | Complaint::Configuration
            | Complaint::Unreadable { .. } => 1,
            Complaint::Stopped | Complaint::OutputClosed => 3,
        }
    }
}

impl fmt::Display for Complaint<'_> {
    ghost use Rattle.std.specs.Prelude.{Some};
    ghost use Rattle.one_space.specs.Complaints.{complaint_text};

    ghost output = { λ c. Some (complaint_text c) };

    fn fmt<W: fmt::Write>(&self, f: &mut fmt::Formatter<W>) -> fmt::Result {
        match *self {
            Complaint::Line { number, fault } => {
                let refusal = line_refusal(fault);
                match fault {
                    LineFault::BadByte { offset } => {
                        write!(f, "line {number}: refused {refusal} at byte {offset}")
                    }
                    _ => write!(f, "line {number}: refused {refusal}"),
                }
            }
            Complaint::Malformed => {
                let refusal = MALFORMED;
                write!(f, "refused {refusal}")
            }
            Complaint::Step { line } => {
                let refusal = BAD_STEP;
                write!(f, "line {line}: refused {refusal}")
            }
            Complaint::Configuration => {
                let refusal = BAD_CONFIGURATION;
                write!(f, "refused {refusal}")
            }
            Complaint::Unreadable { path } => write!(f, "cannot read {path}"),
            Complaint::Stopped => write!(f, "stopped"),
            Complaint::OutputClosed => Ok(()),
        }
    }
}
