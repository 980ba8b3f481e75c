//! Why no party's keys were read.

ghost use Rattle.std.specs.Prelude.{◌≡◌};
ghost use Rattle.keys_file.specs.Faults.{IsComplaint};
ghost use Rattle.keys_file.specs.Reading.{IsReadFault};

use one_space::Complaint;
use party_keys::FileFault;
use std::io;
use thiserror::Error;

/// Why no party's keys were read. What is shown of it stands on one line.
#[derive(Debug, Drop, Error)]
pub enum KeysFault {
    /// The text is the file of no party.
    #[error("{0}")]
    File(FileFault),
    #[error("out of memory")]
    NoMemory,
    /// The file was not read.
    #[error("{0}")]
    Read(io::Error),
}

impl KeysFault {
    /// The fault of a file that can't be opened or read.
    pub fn of_read(error: io::Error) -> KeysFault
        ensures { IsReadFault result }
    {
        if error.kind() == io::ErrorKind::OutOfMemory {
            KeysFault::NoMemory
        } else {
            KeysFault::Read(error)
        }
    }

    /// The complaint about this fault, where the file stands at this path.
    pub fn complaint<'a>(&self, path: &'a str) -> Complaint<'a>
        ensures { IsComplaint self.now path.now result }
    {
        match self {
            KeysFault::File(_) => Complaint::Configuration,
            KeysFault::NoMemory => Complaint::Stopped,
            KeysFault::Read(_) => Complaint::Unreadable { path },
        }
    }
}
