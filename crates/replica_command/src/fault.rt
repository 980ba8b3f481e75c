//! Why a replica's process doesn't begin, or ends before its input does.

ghost use Rattle.std.specs.Prelude.{◌≡◌};
ghost use Rattle.replica_command.specs.Faults.{IsComplaint, IsServeComplaint, status_of};

use keys_file::KeysFault;
use one_space::{Complaint, StandardError, complain};
use replica_process::ServeFault;
use terms::NoMemory;
use thiserror::Error;

/// Why a replica's process doesn't begin, or ends before its input does. What is shown of it stands on one line.
#[derive(Debug, Drop, Error)]
pub enum ReplicaFault {
    /// No party's keys were read.
    #[error("{0}")]
    Keys(KeysFault),
    /// The file is a client's.
    #[error("`party` is {number}, and has to be from 0 to {last_replica}")]
    Client { number: u16, last_replica: u8 },
    /// The path names the standard input.
    #[error("the standard input is read for the records")]
    StandardInput,
    #[error("out of memory")]
    NoMemory,
    /// The replica began, and its process ended before the input did.
    #[error("{0}")]
    Serve(ServeFault),
}

impl ReplicaFault {
    /// The complaint about this fault, where the party's file stands at this path.
    pub fn complaint<'a>(&self, keys: &'a str) -> Complaint<'a>
        ensures { IsComplaint self.now keys.now result }
    {
        match self {
            ReplicaFault::Keys(fault) => fault.complaint(keys),
            ReplicaFault::Client { .. } => Complaint::Configuration,
            ReplicaFault::StandardInput => Complaint::Unreadable { path: keys },
            ReplicaFault::NoMemory => Complaint::Stopped,
            ReplicaFault::Serve(fault) => serve_complaint(fault),
        }
    }
}

fn serve_complaint(fault: &ServeFault) -> Complaint<'static>
    ensures { IsServeComplaint fault.now result }
{
    match fault {
        ServeFault::Write(error) => Complaint::of_write(error),
        ServeFault::NoMemory | ServeFault::TooLarge | ServeFault::Read(_) => Complaint::Stopped,
    }
}

/// Complains, and tells why on a line of its own. Returns the status of the program.
pub fn end_replica<R: Eprint>(rt: &R, fault: &ReplicaFault, keys: &str) -> u8
    ensures { result ≡ status_of fault.now }
{
    complain(&mut StandardError::new(rt), fault.complaint(keys), fault)
}

impl From<NoMemory> for ReplicaFault {
    ghost use Rattle.std.specs.Prelude.{◌≡◌};
    ghost use Rattle.replica_command.specs.declared.fault.ReplicaFault.TheVariants.{NoMemory as no_memory};

    ghost from_gives = { λ _ fault. fault ≡ no_memory };

    fn from(_failed: NoMemory) -> ReplicaFault {
        ReplicaFault::NoMemory
    }
}
