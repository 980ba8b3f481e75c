//! Why a log isn't read or doesn't go on.

ghost use Rattle.std.specs.Prelude.{◌≡◌};
ghost use Rattle.event_log.specs.declared.fault.LogFault.TheVariants as faults;

use std::alloc::AllocError;
use std::io;
use thiserror::Error;

/// Why a log isn't read or doesn't go on.
#[derive(Debug, Drop, Error)]
pub enum LogFault {
    /// There was no memory for a group.
    #[error("out of memory")]
    NoMemory,
    /// The disk failed. What it has is unknown until the log is read again.
    #[error("the disk failed: {0}")]
    Disk(io::Error),
    /// The file is empty, and so has no log.
    #[error("there is no log: the file is empty")]
    Missing,
    /// A log is to be made, and the file has something.
    #[error("there is something in the file already, and no log is made over it")]
    Exists,
    /// The file is shorter than a header. Its making was cut off, so nothing was logged in it, or it was cut.
    #[error("the file has {len} bytes, fewer than the header of a log")]
    Unmade {
        /// Bytes of the file.
        len: usize,
    },
    /// The file begins with another form's name.
    #[error("the file is no log of this form")]
    NoLog,
    /// The header's check is wrong.
    #[error("the header is damaged, at byte 0")]
    DamagedHeader,
    /// The header is sound, and another owner's.
    #[error("the log is another owner's: its header has other keys")]
    Foreign,
    /// No group stands where the next one should, and a sound group stands at that place or behind it.
    #[error("damaged at byte {place}, where event {number} should stand: a sound group stands at byte {sound}")]
    Damaged {
        /// The byte at which the sound groups end that stand without a gap.
        place: usize,
        /// The number of the event that should stand there.
        number: u64,
        /// The byte at which a sound group begins.
        sound: usize,
    },
    /// A group has no room for the event.
    #[error("an event of {len} bytes has no room in a group")]
    TooLong {
        /// Bytes of the event.
        len: usize,
    },
    /// The file would become longer than it may.
    #[error("the log is full: its file would have more than {room} bytes")]
    Full {
        /// Most bytes that the file may have.
        room: usize,
    },
}

impl From<AllocError> for LogFault {
    ghost from_gives = { λ _ fault. fault ≡ faults.NoMemory };

    fn from(_failed: AllocError) -> LogFault {
        LogFault::NoMemory
    }
}

impl From<io::Error> for LogFault {
    ghost from_gives = { λ error fault. fault ≡ faults.Disk error };

    fn from(error: io::Error) -> LogFault {
        LogFault::Disk(error)
    }
}
