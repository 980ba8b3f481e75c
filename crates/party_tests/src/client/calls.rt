//! A call from its request to its answer, and a call that is refused.

use crate::answers::{all_hold, holds};
use crate::client::clients::{Given, Input, OUT, OUT_ORDERED, asks, gives, new_client};
use client_cert::{Client, Event, InvokeFault};
use std::alloc::Global;
use terms::NoMemory;
use test_bytes::read_op;
use tuple_codec::Op;

fn refuses(client: &mut Client, alloc: Global, op: Op<Global>) -> bool {
    client.invoke(alloc, op).err() == Some(InvokeFault::Busy)
        && client.is_open()
        && !client.is_stopped()
}

fn is_busy(client: &mut Client, alloc: Global) -> Result<bool, NoMemory> {
    match read_op(alloc, OUT) {
        Some(op) => Ok(refuses(client, alloc, op)),
        None => Err(NoMemory),
    }
}

// Replica 2's reply is the third equal one. Later ones are no replies to an open call.
fn takes_reply(client: &mut Client, alloc: Global, replica: u8) -> Result<bool, NoMemory> {
    let given = if replica == 2 {
        Given::Accepts(true)
    } else {
        Given::Nothing
    };
    let is_given = gives(client, alloc, (Input::OrderedDone(replica, 1), given))?;
    Ok(is_given && client.is_open() == (replica < 2))
}

fn is_answered(client: &mut Client, alloc: Global) -> Result<bool, NoMemory> {
    all_hold(&[
        asks(client, alloc, OUT, OUT_ORDERED),
        Ok(client.is_open()),
        is_busy(client, alloc),
        gives(client, alloc, (Input::Retry, Given::Asks(OUT_ORDERED))),
        takes_reply(client, alloc, 0),
        takes_reply(client, alloc, 1),
        takes_reply(client, alloc, 2),
        takes_reply(client, alloc, 3),
    ])
}

fn new_call_is_answered(alloc: Global) -> Result<bool, NoMemory> {
    let mut client = new_client(alloc)?;
    let answer = is_answered(&mut *client, alloc);
    drop(client);
    answer
}

#[test]
fn a_call_is_answered(rt: HostRuntime) {
    holds(&rt, new_call_is_answered(rt.alloc()));
}

fn is_idle(client: &mut Client, alloc: Global) -> bool {
    match client.step(alloc, Event::Retry) {
        Ok(outputs) => {
            let is_right = outputs.is_empty() && !client.is_open();
            drop(outputs);
            is_right
        }
        Err(_) => false,
    }
}

fn new_client_is_idle(alloc: Global) -> Result<bool, NoMemory> {
    let mut client = new_client(alloc)?;
    let is_right = is_idle(&mut *client, alloc);
    drop(client);
    Ok(is_right)
}

#[test]
fn without_a_call_nothing_goes_again(rt: HostRuntime) {
    holds(&rt, new_client_is_idle(rt.alloc()));
}
