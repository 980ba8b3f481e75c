//! Why no keys were written.

ghost use Rattle.std.specs.Prelude.{◌≡◌};
ghost use Rattle.keys_command.specs.Faults.{HasComplaint, IsReadFault, IsWriteFault, status_of};

use config_text::ConfigFault;
use one_space::{Complaint, StandardError, complain};
use std::io;
use terms::NoMemory;
use thiserror::Error;
use trace_text::Name;

/// Where a fresh seed is drawn from.
pub(crate) const RANDOMNESS: &str = "/dev/urandom";

/// Why no keys were written, or not all of them. What is shown of it stands on one line.
#[derive(Debug, Drop, Error)]
pub enum KeysFault {
    /// The text is no configuration.
    #[error("{0}")]
    Configuration(ConfigFault),
    /// The file of this party is there already. Nothing was written.
    #[error("{0}.toml is there already, and no file is written over")]
    Exists(Name),
    #[error("out of memory")]
    NoMemory,
    /// The configuration was not read.
    #[error("{0}")]
    Read(io::Error),
    /// No seed was drawn.
    #[error("{0}")]
    Draw(io::Error),
    #[error("not written: {0}")]
    Write(io::Error),
}

impl KeysFault {
    /// The fault of a configuration that can't be opened or read.
    pub fn of_read(error: io::Error) -> KeysFault
        ensures { IsReadFault result }
    {
        if error.kind() == io::ErrorKind::OutOfMemory {
            KeysFault::NoMemory
        } else {
            KeysFault::Read(error)
        }
    }

    /// The fault of a folder that can't be made or looked into, or of a file that can't be written.
    pub fn of_write(error: io::Error) -> KeysFault
        ensures { IsWriteFault result }
    {
        if error.kind() == io::ErrorKind::OutOfMemory {
            KeysFault::NoMemory
        } else {
            KeysFault::Write(error)
        }
    }

    /// The complaint about this fault, where the configuration stands at this path. `None` if the words ask for what
    /// may not be done.
    pub fn complaint<'a>(&self, config: &'a str) -> Option<Complaint<'a>>
        ensures { HasComplaint self.now config.now result }
    {
        match self {
            KeysFault::Configuration(_) => Some(Complaint::Configuration),
            KeysFault::Exists(_) => None,
            KeysFault::NoMemory => Some(Complaint::Stopped),
            KeysFault::Read(_) => Some(Complaint::Unreadable { path: config }),
            KeysFault::Draw(_) => Some(Complaint::Unreadable { path: RANDOMNESS }),
            KeysFault::Write(error) => Some(Complaint::of_write(error)),
        }
    }
}

/// Complains, and tells why on a line of its own. To write over a file is a mistake in the words. Returns the status of
/// the program.
pub fn end_keys<R: Eprint>(rt: &R, fault: &KeysFault, config: &str) -> u8
    ensures { result ≡ status_of fault.now }
{
    let Some(complaint) = fault.complaint(config) else {
        let _ = eprintln!(rt; "error: {fault}");
        return 2;
    };
    complain(&mut StandardError::new(rt), complaint, fault)
}

impl From<NoMemory> for KeysFault {
    ghost use Rattle.std.specs.Prelude.{◌≡◌};
    ghost use Rattle.keys_command.specs.declared.fault.KeysFault.TheVariants.{NoMemory as no_memory};

    ghost from_gives = { λ _ fault. fault ≡ no_memory };

    fn from(_failed: NoMemory) -> KeysFault {
        KeysFault::NoMemory
    }
}
