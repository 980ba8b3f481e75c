//! Why no report was printed.

ghost use Rattle.std.specs.Prelude.{◌≡◌};
ghost use Rattle.schedule_command.specs.Faults.{HasComplaint, IsPictureFault, IsReadFault, reason_of, status_of};

use crate::allowed::NotAllowed;
use config_text::ConfigFault;
use one_space::{Complaint, ReadFault, StandardError, complain};
use picture::PictureFault;
use schedule_lines::LineRefusal;
use schedule_text::Reason;
use std::io;
use terms::NoMemory;
use thiserror::Error;

/// Why no report was printed. What is shown of it stands on one line.
#[derive(Debug, Drop, Error)]
pub enum ScheduleFault {
    /// The text is no configuration.
    #[error("{0}")]
    Configuration(ConfigFault),
    /// The line of this number, from 1, is no step, or one that may not come there.
    #[error("{reason}")]
    Step { line: u64, reason: StepReason },
    /// The trace has no entry at the positions that the picture is to show.
    #[error("the trace has {entries} entries, counted from 0, and none of them is to be drawn")]
    NoEntry { entries: u64 },
    /// The entries from the first one on are more than a picture has room for.
    #[error("{entries} entries are too many for a picture; choose a part, as by --from {first} --to {last}")]
    TooHigh { entries: u64, first: u64, last: u64 },
    #[error("{parties} parties are too many for a picture; choose a part by --from and --to in which at most {most} take part")]
    TooWide { parties: u64, most: u64 },
    #[error("out of memory")]
    NoMemory,
    #[error("{0}")]
    Read(io::Error),
    #[error("not written: {0}")]
    Write(io::Error),
}

/// Why a line is refused.
#[derive(Clone, Copy, Debug, Error)]
pub enum StepReason {
    /// It is the text of no step, which its byte of this place, from 0, shows.
    #[error("byte {byte}: {reason}")]
    NoStep { byte: u64, reason: Reason },
    /// Lines have no greater numbers.
    #[error("there are too many lines")]
    LastLine,
    /// Its step may not come there.
    #[error("{0}")]
    NotAllowed(NotAllowed),
}

impl StepReason {
    /// The reason of a line that is none of a step.
    pub(crate) fn of_line(refusal: LineRefusal) -> StepReason
        ensures { result ≡ reason_of refusal }
    {
        match refusal {
            LineRefusal::NoStep { byte, reason } => StepReason::NoStep { byte, reason },
            LineRefusal::LastLine => StepReason::LastLine,
        }
    }
}

impl ScheduleFault {
    /// The fault of a picture that begins at this position.
    pub(crate) fn of_picture(fault: PictureFault, first: u64) -> ScheduleFault
        ensures { IsPictureFault result }
    {
        match fault {
            PictureFault::NoEntry { entries } => ScheduleFault::NoEntry { entries },
            PictureFault::TooHigh { entries, most } => ScheduleFault::TooHigh {
                entries,
                first,
                last: first.saturating_add(most).saturating_sub(1),
            },
            PictureFault::TooWide { parties, most } => ScheduleFault::TooWide { parties, most },
            PictureFault::NoMemory => ScheduleFault::NoMemory,
        }
    }

    /// The fault of a file that can't be opened or read.
    pub fn of_read(error: io::Error) -> ScheduleFault
        ensures { IsReadFault result }
    {
        if error.kind() == io::ErrorKind::OutOfMemory {
            ScheduleFault::NoMemory
        } else {
            ScheduleFault::Read(error)
        }
    }

    /// The complaint about this fault of the file at this path. `None` if the words ask for what can't be drawn.
    pub fn complaint<'a>(&self, path: &'a str) -> Option<Complaint<'a>>
        ensures { HasComplaint self.now path.now result }
    {
        match self {
            ScheduleFault::Configuration(_) => Some(Complaint::Configuration),
            ScheduleFault::Step { line, .. } => Some(Complaint::Step { line: *line }),
            ScheduleFault::NoEntry { .. }
            | ScheduleFault::TooHigh { .. }
            | ScheduleFault::TooWide { .. } => None,
            ScheduleFault::Read(_) => Some(Complaint::Unreadable { path }),
            ScheduleFault::NoMemory => Some(Complaint::Stopped),
            ScheduleFault::Write(error) => Some(Complaint::of_write(error)),
        }
    }
}

/// Complains about the file at this path, and tells why on a line of its own. What can't be drawn is a mistake in the
/// words. Returns the status of the program.
pub fn end_schedule<R: Eprint>(rt: &R, fault: &ScheduleFault, path: &str) -> u8
    ensures { result ≡ status_of fault.now }
{
    let Some(complaint) = fault.complaint(path) else {
        let _ = eprintln!(rt; "error: {fault}");
        return 2;
    };
    complain(&mut StandardError::new(rt), complaint, fault)
}

impl From<NoMemory> for ScheduleFault {
    ghost use Rattle.std.specs.Prelude.{◌≡◌};
    ghost use Rattle.schedule_command.specs.declared.fault.ScheduleFault.TheVariants.{NoMemory as no_memory};

    ghost from_gives = { λ _ fault. fault ≡ no_memory };

    fn from(_failed: NoMemory) -> ScheduleFault {
        ScheduleFault::NoMemory
    }
}

impl From<ReadFault> for ScheduleFault {
    ghost use Rattle.std.specs.Prelude.{◌≡◌};
    ghost use Rattle.schedule_command.specs.Faults.{fault_of_reader};

    ghost from_gives = { λ read fault. fault ≡ fault_of_reader read };

    fn from(fault: ReadFault) -> ScheduleFault {
        match fault {
            ReadFault::NoMemory => ScheduleFault::NoMemory,
            ReadFault::Read(error) => ScheduleFault::Read(error),
        }
    }
}
