//! The command, from a path to the status that the program ends with.

use crate::fault::{ReplicaFault, end_replica};
use crate::serving::serve_file;
use keys_file::KeysFault;
use one_space::is_standard_input;
use std::rt::Files;
use std::{fs, io};

/// Serves the replica whose file stands at this path over the records of standard input, and writes records to standard
/// output. Gives the status of the program.
pub fn run_replica<R: Files + Input + Print + Eprint + AllocGlobal>(rt: &R, keys: &str) -> u8 {
    match serve_at(rt, keys) {
        Ok(()) => 0,
        Err(fault) => end_replica(rt, &fault, keys),
    }
}

fn serve_at<R: Files + Input + Print + AllocGlobal>(
    rt: &R,
    keys: &str,
) -> Result<(), ReplicaFault> {
    if is_standard_input(keys) {
        return Err(ReplicaFault::StandardInput);
    }
    match fs::open(rt, keys) {
        Ok(file) => serve_file(rt.alloc(), file, rt.reader(), &mut io::writer(rt)),
        Err(error) => Err(ReplicaFault::Keys(KeysFault::of_read(error))),
    }
}
