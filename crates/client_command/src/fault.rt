//! Why a client's process doesn't begin, or ends before its script does.

ghost use Rattle.std.specs.Prelude.{◌≡◌};
ghost use Rattle.client_command.specs.Faults.{IsComplaint, IsConverseComplaint, IsStatus};

use client_process::ConverseFault;
use keys_file::KeysFault;
use one_space::{Complaint, StandardError, complain};
use std::io;
use terms::NoMemory;
use thiserror::Error;

/// Why a client's process doesn't begin, or ends before its script does. What is shown of it stands on one line.
#[derive(Debug, Drop, Error)]
pub enum ClientFault {
    /// No party's keys were read.
    #[error("{0}")]
    Keys(KeysFault),
    /// The file is a replica's.
    #[error("`party` is {number}, and has to be from 256 to {last_client}")]
    Replica { number: u16, last_client: u16 },
    /// The life would begin above the last timestamp.
    #[error("no timestamp is left above {above}")]
    Spent { above: u64 },
    /// The path of the keys names the standard input.
    #[error("the standard input is read for the script")]
    StandardInput,
    /// The clock was not read, by which the life would begin.
    #[error("the clock can't be read: {0}")]
    Clock(io::Error),
    /// The file from which records come was not opened.
    #[error("{0}")]
    RecordsIn(io::Error),
    /// The file to which records go was not opened.
    #[error("the file for records can't be opened: {0}")]
    RecordsOut(io::Error),
    #[error("out of memory")]
    NoMemory,
    /// The client began, and its process ended before the script did.
    #[error("{0}")]
    Converse(ConverseFault),
}

impl ClientFault {
    /// The complaint about this fault, where the party's file and the file from which records come stand at these
    /// paths.
    pub fn complaint<'a>(&self, keys: &'a str, records_in: &'a str) -> Complaint<'a>
        ensures { IsComplaint self.now keys.now records_in.now result }
    {
        match self {
            ClientFault::Keys(fault) => fault.complaint(keys),
            ClientFault::Replica { .. } => Complaint::Configuration,
            ClientFault::Spent { .. } => Complaint::Configuration,
            ClientFault::StandardInput => Complaint::Unreadable { path: keys },
            ClientFault::Clock(_) => Complaint::Stopped,
            ClientFault::RecordsIn(error) => Complaint::of_open(error, records_in),
            ClientFault::RecordsOut(_) => Complaint::Stopped,
            ClientFault::NoMemory => Complaint::Stopped,
            ClientFault::Converse(fault) => converse_complaint(fault),
        }
    }
}

fn converse_complaint(fault: &ConverseFault) -> Complaint<'static>
    ensures { IsConverseComplaint fault.now result }
{
    match fault {
        ConverseFault::Write(error) => Complaint::of_write(error),
        ConverseFault::NoMemory
        | ConverseFault::Stopped
        | ConverseFault::Unanswered
        | ConverseFault::TooLarge
        | ConverseFault::Read(_) => Complaint::Stopped,
    }
}

/// Complains, and tells why on a line of its own. Returns the status of the program.
pub fn end_client<R: Eprint>(rt: &R, fault: &ClientFault, keys: &str, records_in: &str) -> u8
    ensures { IsStatus fault.now keys.now records_in.now result }
{
    complain(
        &mut StandardError::new(rt),
        fault.complaint(keys, records_in),
        fault,
    )
}

impl From<NoMemory> for ClientFault {
    ghost use Rattle.std.specs.Prelude.{◌≡◌};
    ghost use Rattle.client_command.specs.declared.fault.ClientFault.TheVariants.{NoMemory as no_memory};

    ghost from_gives = { λ _ fault. fault ≡ no_memory };

    fn from(_failed: NoMemory) -> ClientFault {
        ClientFault::NoMemory
    }
}
