//! A client that makes its first call.

use crate::left::{Call, Outcome, assert_right, outcome_of, under_each_size};
use authenticator::{Ring, deal};
use client_cert::{Client, InvokeFault};
use events::Output;
use signing::PublicKeys;
use std::alloc::Global;
use terms::{ClientId, NoMemory, Party};
use test_bytes::{TAKE, read_op, seed};
use tuple_codec::Op;

const CRUMBS: usize = 256;

const CRUMB: usize = 48;

// Each time a new client, since one that lacks memory has stopped.
#[derive(Drop)]
struct Invokes;

impl Call for Invokes {
    fn call(&mut self, alloc: Global) -> Outcome {
        match new_client(alloc) {
            Ok(mut client) => take(&mut client, alloc),
            Err(NoMemory) => Outcome::Refused,
        }
    }
}

const CLIENT: ClientId = ClientId { number: 0 };

fn new_client(alloc: Global) -> Result<Client, NoMemory> {
    let publics = PublicKeys::new(alloc, &seed(), 1)?;
    let keys = deal(alloc, &seed(), 1, 1, Party::Client(CLIENT))?;
    let ring = Ring::of_party(alloc, 1, 1, keys)?;
    Ok(Client::new(CLIENT, 1, ring, publics))
}

fn take(client: &mut Client, alloc: Global) -> Outcome {
    match read_op(alloc, TAKE) {
        Some(op) => invoke_once(client, alloc, op),
        None => Outcome::Refused,
    }
}

fn invoke_once(client: &mut Client, alloc: Global, op: Op<Global>) -> Outcome {
    let invoked = client.invoke(alloc, op);
    outcome_of(
        is_one(&invoked) && !client.is_stopped(),
        matches!(invoked, Err(InvokeFault::NoMemory)) && client.is_stopped(),
    )
}

fn is_one(invoked: &Result<Vec<Output>, InvokeFault>) -> bool {
    match invoked {
        Ok(outputs) => outputs.len() == 1,
        Err(_) => false,
    }
}

#[test]
fn invokes_under_each_size(rt: HostRuntime) {
    assert_right(
        &rt,
        under_each_size(&rt, rt.alloc(), CRUMBS, CRUMB, &mut Invokes),
    );
}
