//! The command, from paths to the status that the program ends with.

use crate::above::above_of;
use crate::asking::AskedLines;
use crate::fault::{ClientFault, end_client};
use crate::serving::{begin_client, serve_client};
use client_cert::Client;
use keys_file::{KeysFault, read_keys};
use one_space::{Terminals, is_standard_input};
use party_keys::PartyKeys;
use std::fs::{self, OpenOptions};
use std::io;
use std::rt::Files;
use std::time::Clock;

/// What `client` is asked for: the paths of its file of keys and of where it reads and writes records, and the
/// timestamp above which its life begins, if the clock isn't to tell it.
#[derive(Clone, Copy, Debug)]
pub struct ClientRequest<'a> {
    pub keys: &'a str,
    pub records_in: &'a str,
    pub records_out: &'a str,
    pub above: Option<u64>,
}

/// Serves the client whose file stands at the path of keys: calls the operations of the script on standard input, and
/// writes their results to standard output. Once it has a client it opens the other two paths, first that from which it
/// reads records. Someone who sits at a terminal is shown a prompt there. Gives the status of the program.
pub fn run_client<R: Files + Input + Print + Eprint + AllocGlobal + Clock>(
    rt: &R,
    terminals: Terminals,
    request: ClientRequest<'_>,
) -> u8 {
    match serve_at(rt, terminals.input && terminals.errors, request) {
        Ok(()) => 0,
        Err(fault) => end_client(rt, &fault, request.keys, request.records_in),
    }
}

// Opening a pipe may wait for its other end, so all else is judged before.
fn serve_at<R: Files + Input + Print + Eprint + AllocGlobal + Clock>(
    rt: &R,
    has_prompt: bool,
    request: ClientRequest<'_>,
) -> Result<(), ClientFault> {
    let client = client_at(rt, request)?;
    let records = match fs::open(rt, request.records_in) {
        Ok(file) => file,
        Err(error) => return Err(ClientFault::RecordsIn(error)),
    };
    let mut how = OpenOptions::new();
    how.write(true);
    let mut frames = match how.open(rt, request.records_out) {
        Ok(file) => file,
        Err(error) => return Err(ClientFault::RecordsOut(error)),
    };
    let script = AskedLines::new(rt, has_prompt, rt.reader());
    serve_client(
        rt.alloc(),
        client,
        script,
        records,
        &mut frames,
        &mut io::writer(rt),
    )
}

fn client_at<R: Files + AllocGlobal + Clock>(
    rt: &R,
    request: ClientRequest<'_>,
) -> Result<Client, ClientFault> {
    let keys = keys_at(rt, request.keys)?;
    let above = above_of(rt, request.above)?;
    begin_client(rt.alloc(), &keys, above)
}

fn keys_at<R: Files + AllocGlobal>(rt: &R, path: &str) -> Result<PartyKeys, ClientFault> {
    if is_standard_input(path) {
        return Err(ClientFault::StandardInput);
    }
    let keys = match fs::open(rt, path) {
        Ok(file) => read_keys(rt.alloc(), file),
        Err(error) => Err(KeysFault::of_read(error)),
    };
    match keys {
        Ok(keys) => Ok(keys),
        Err(fault) => Err(ClientFault::Keys(fault)),
    }
}
