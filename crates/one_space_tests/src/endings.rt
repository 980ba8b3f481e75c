//! How a command ends, in a form that can be compared.

use one_space::{LocalFault, ShowFault};
use space::Space;
use std::io;
use tuple_text::LineFault;

#[derive(Clone, Copy, Debug, PartialEq, Eq)]
pub enum Ending {
    Complete,
    Refused(u64, LineFault),
    Malformed,
    NoMemory,
    Read,
    Write,
}

pub fn local_ending(ending: Result<Space, LocalFault>) -> Ending {
    match ending {
        Ok(_space) => Ending::Complete,
        Err(LocalFault::Refused { line, fault }) => Ending::Refused(line, fault),
        Err(LocalFault::NoMemory) => Ending::NoMemory,
        Err(LocalFault::Read(_)) => Ending::Read,
        Err(LocalFault::Write(error)) => write_ending(&error),
    }
}

pub fn show_ending(ending: Result<(), ShowFault>) -> Ending {
    match ending {
        Ok(()) => Ending::Complete,
        Err(ShowFault::Malformed(_)) => Ending::Malformed,
        Err(ShowFault::NoMemory) => Ending::NoMemory,
        Err(ShowFault::Write(error)) => write_ending(&error),
    }
}

// Most tests keep the output, for which memory can run out too.
fn write_ending(error: &io::Error) -> Ending {
    match error.kind() {
        io::ErrorKind::OutOfMemory => Ending::NoMemory,
        _ => Ending::Write,
    }
}
