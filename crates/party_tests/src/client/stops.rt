//! Memory refused to a client. In a plain run nothing is refused here. `tools/growths` refuses each growth in turn,
//! and each test passes at each: if memory runs out the client has stopped, and it gives nothing from then on.

use crate::answers::{all_hold, holds};
use crate::client::clients::{
    Given, Input, OUT, OUT_ORDERED, RDP, RDP_READ, Row, frame_in, is_given, new_client, step,
};
use crate::client::replies::{Case, FALL_BACK, REPLIES, RETRIED};
use authenticator::SealFault;
use client_cert::{Client, Event, InvokeFault};
use events::Stop;
use std::alloc::Global;
use terms::NoMemory;
use test_bytes::read_op;
use tuple_codec::Op;

static CALLS: [Case<'static>; 2] = [(OUT, OUT_ORDERED, &[]), (RDP, RDP_READ, &[])];

// Two retries of an ordered request.
static ASKED_AGAIN: Case<'static> = (
    OUT,
    OUT_ORDERED,
    &[
        (Input::Retry, Given::Asks(OUT_ORDERED)),
        (Input::Retry, Given::Asks(OUT_ORDERED)),
    ],
);

// The preparation of a step is tried a second time if memory runs out.
fn made(alloc: Global) -> Result<Box<Client>, NoMemory> {
    match new_client(alloc) {
        Ok(client) => Ok(client),
        Err(NoMemory) => new_client(alloc),
    }
}

fn reply(alloc: Global, input: Input) -> Result<Option<Vec<u8>>, SealFault> {
    match frame_in(alloc, input) {
        Ok(frame) => Ok(frame),
        Err(_) => frame_in(alloc, input),
    }
}

fn gives_nothing_more(client: &mut Client, alloc: Global) -> bool {
    client.is_stopped()
        && client.step(alloc, Event::Retry).err() == Some(Stop::Stopped)
        && client.step(alloc, Event::Got(b"")).err() == Some(Stop::Stopped)
}

// None if the client has stopped.
fn ends(client: &mut Client, alloc: Global) -> Option<bool> {
    if gives_nothing_more(client, alloc) {
        None
    } else {
        Some(false)
    }
}

fn calls_or_stops(
    client: &mut Client,
    alloc: Global,
    op: Op<Global>,
    digits: &str,
) -> Option<bool> {
    match client.invoke(alloc, op) {
        Ok(outputs) => Some(is_given(outputs, Given::Asks(digits)) && !client.is_stopped()),
        Err(InvokeFault::NoMemory) => ends(client, alloc),
        Err(_) => Some(false),
    }
}

// Whether the call asks for its operation; none if the client stops in it.
fn asks_or_stops(client: &mut Client, alloc: Global, (text, digits, _): Case<'_>) -> Option<bool> {
    match read_op(alloc, text) {
        Some(op) => calls_or_stops(client, alloc, op, digits),
        None => Some(false),
    }
}

fn steps_or_stops(
    client: &mut Client,
    alloc: Global,
    frame: &Option<Vec<u8>>,
    given: Given<'_>,
) -> Option<bool> {
    match step(client, alloc, frame) {
        Ok(outputs) => Some(is_given(outputs, given) && !client.is_stopped()),
        Err(Stop::NoMemory) => ends(client, alloc),
        Err(Stop::Stopped) => Some(false),
    }
}

// Whether the input gives this; none if the client stops in it.
fn gives_or_stops(client: &mut Client, alloc: Global, (input, given): Row<'_>) -> Option<bool> {
    match reply(alloc, input) {
        Ok(frame) => {
            let is_right = steps_or_stops(client, alloc, &frame, given);
            drop(frame);
            is_right
        }
        Err(_) => Some(false),
    }
}

// Whether each input gives the expected output, up to one in which the client stops.
fn gives_all_or_stops(client: &mut Client, alloc: Global, rows: &[Row<'_>]) -> bool {
    for row in rows {
        match gives_or_stops(client, alloc, *row) {
            Some(true) => {}
            Some(false) => return false,
            None => return true,
        }
    }
    true
}

// The same, of the call and each input after it.
fn goes_on_or_stops(client: &mut Client, alloc: Global, case: Case<'_>) -> bool {
    match asks_or_stops(client, alloc, case) {
        Some(true) => gives_all_or_stops(client, alloc, case.2),
        Some(false) => false,
        None => true,
    }
}

fn goes_or_stops(alloc: Global, case: Case<'_>) -> Result<bool, NoMemory> {
    let mut client = made(alloc)?;
    let is_right = goes_on_or_stops(&mut *client, alloc, case);
    drop(client);
    Ok(is_right)
}

fn all_go_or_stop(alloc: Global, cases: &[Case<'_>]) -> Result<bool, NoMemory> {
    for &case in cases {
        if !goes_or_stops(alloc, case)? {
            return Ok(false);
        }
    }
    Ok(true)
}

#[test]
fn refused_memory_at_a_call(rt: HostRuntime) {
    holds(&rt, all_go_or_stop(rt.alloc(), &CALLS));
}

#[test]
fn refused_memory_at_replies(rt: HostRuntime) {
    holds(&rt, all_go_or_stop(rt.alloc(), &REPLIES));
}

#[test]
fn refused_memory_at_retries(rt: HostRuntime) {
    holds(
        &rt,
        all_hold(&[
            goes_or_stops(rt.alloc(), ASKED_AGAIN),
            goes_or_stops(rt.alloc(), RETRIED),
        ]),
    );
}

#[test]
fn refused_memory_where_a_read_falls_back(rt: HostRuntime) {
    holds(&rt, goes_or_stops(rt.alloc(), FALL_BACK));
}
