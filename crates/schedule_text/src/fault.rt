//! Why a line gives no step.

use crate::arguments::LAST_CLIENT;
use crate::lines::MAX_STEP;
use std::alloc::{AllocError, AllocFailed};
use std::fmt;
use thiserror::Error;
use tuple_text::LineFault;

/// An argument of a step, which is shown by its name in `docs/formats.md`.
#[derive(Clone, Copy, Debug, PartialEq, Eq)]
pub enum Argument {
    Client,
    Line,
    Frame,
    Party,
    Parties,
    Leaf,
    Hex,
}

impl fmt::Display for Argument {
    fn fmt<W: fmt::Write>(&self, f: &mut fmt::Formatter<W>) -> fmt::Result {
        f.write_str(match self {
            Argument::Client => "CLIENT",
            Argument::Line => "LINE",
            Argument::Frame => "FRAME",
            Argument::Party => "PARTY",
            Argument::Parties => "PARTIES",
            Argument::Leaf => "LEAF",
            Argument::Hex => "HEX",
        })
    }
}

/// Why a line is the text of no step.
#[derive(Clone, Copy, Debug, PartialEq, Eq)]
pub enum Reason {
    /// The line is longer than [`MAX_STEP`](crate::MAX_STEP).
    TooLong,
    UnknownName,
    /// The line ends before this argument.
    Missing(Argument),
    /// The argument is no decimal number of its range, or has a leading zero.
    NoNumber(Argument),
    /// The argument, or one of several parties, is no party.
    NoParty(Argument),
    NoDigit,
    OddDigits,
    /// The line of the operation is refused as it would be in a script, where it would stand alone.
    Operation(LineFault),
    /// A word follows the last argument.
    SpareWord,
}

impl fmt::Display for Reason {
    fn fmt<W: fmt::Write>(&self, f: &mut fmt::Formatter<W>) -> fmt::Result {
        match *self {
            Reason::TooLong => write!(f, "no step has a line of more than {MAX_STEP} bytes"),
            Reason::UnknownName => write!(f, "no step has this name"),
            Reason::Missing(argument) => write!(f, "{argument} is missing"),
            Reason::NoNumber(argument) => write_number(argument, f),
            Reason::NoParty(Argument::Parties) => {
                write!(f, "PARTIES has to be one or more parties, as r0,c0")
            }
            Reason::NoParty(argument) => write!(f, "{argument} has to be a party, as r0 or c0"),
            Reason::NoDigit => write!(f, "this is no hexadecimal digit"),
            Reason::OddDigits => write!(f, "HEX has an odd number of digits"),
            Reason::Operation(fault) => write_operation(fault, f),
            Reason::SpareWord => write!(f, "a word is left over"),
        }
    }
}

// The number that the argument has to be.
fn write_number<W: fmt::Write>(argument: Argument, f: &mut fmt::Formatter<W>) -> fmt::Result {
    let most = match argument {
        Argument::Client => u64::from(LAST_CLIENT),
        _ => u64::MAX,
    };
    write!(
        f,
        "{argument} has to be a number up to {most}, without a leading zero"
    )
}

// The refusal of an operation's line, with its own byte if it has one.
fn write_operation<W: fmt::Write>(fault: LineFault, f: &mut fmt::Formatter<W>) -> fmt::Result {
    let number = fault.number();
    match fault {
        LineFault::BadByte { offset } => {
            write!(f, "LINE is refused {number} at its byte {offset}")
        }
        _ => write!(f, "LINE is refused {number}: {fault}"),
    }
}

/// Why a line gives no step.
#[derive(Clone, Copy, Debug, PartialEq, Eq, Error)]
pub enum StepFault {
    /// The line is the text of no step. The byte, from 0, is the first of the word that the reason is about, the first
    /// that is no digit, or the line's end.
    #[error("byte {byte}: {reason}")]
    Refused { byte: usize, reason: Reason },
    #[error("out of memory")]
    NoMemory,
}

impl From<AllocError> for StepFault {
    ghost use Rattle.std.specs.Prelude.{◌≡◌};
    ghost use Rattle.schedule_text.specs.declared.fault.StepFault.TheVariants.{NoMemory};

    ghost from_gives = { λ _ fault. fault ≡ NoMemory };

    fn from(_failed: AllocError) -> StepFault {
        StepFault::NoMemory
    }
}

impl<T: Drop> From<AllocFailed<T>> for StepFault {
    ghost use Rattle.std.specs.Prelude.{◌≡◌};
    ghost use Rattle.schedule_text.specs.declared.fault.StepFault.TheVariants.{NoMemory};

    ghost from_gives = { λ _ fault. fault ≡ NoMemory };

    fn from(_failed: AllocFailed<T>) -> StepFault {
        StepFault::NoMemory
    }
}
