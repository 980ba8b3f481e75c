//! A client that is started again, while the call of its earlier life is open.

use crate::answers::{all_hold, holds};
use crate::client::clients::{Given, Input, OUT, OUT_SECOND, asks, gives, later_client};
use client_cert::Client;
use std::alloc::Global;
use terms::NoMemory;

// Replies to the call of timestamp 1 come, which the earlier life left open, before the first call of this one.
fn begins_silent(client: &mut Client, alloc: Global) -> Result<bool, NoMemory> {
    all_hold(&[
        gives(client, alloc, (Input::OrderedDone(0, 1), Given::Nothing)),
        gives(client, alloc, (Input::OrderedDone(1, 1), Given::Nothing)),
        gives(client, alloc, (Input::OrderedDone(2, 1), Given::Nothing)),
        gives(client, alloc, (Input::Retry, Given::Nothing)),
    ])
}

// They come again after it, and then those to its own call.
fn takes_its_own(client: &mut Client, alloc: Global) -> Result<bool, NoMemory> {
    all_hold(&[
        asks(client, alloc, OUT, OUT_SECOND),
        gives(client, alloc, (Input::OrderedDone(0, 1), Given::Nothing)),
        gives(client, alloc, (Input::OrderedDone(1, 1), Given::Nothing)),
        gives(client, alloc, (Input::OrderedDone(2, 1), Given::Nothing)),
        Ok(client.is_open()),
        gives(client, alloc, (Input::Next(0, 2), Given::Nothing)),
        gives(client, alloc, (Input::Next(1, 2), Given::Nothing)),
        gives(client, alloc, (Input::Next(2, 2), Given::AcceptsNext)),
        Ok(!client.is_open()),
    ])
}

fn later_life_answers_its_own(alloc: Global) -> Result<bool, NoMemory> {
    let mut client = later_client(alloc)?;
    let silent = begins_silent(&mut *client, alloc);
    let own = takes_its_own(&mut *client, alloc);
    drop(client);
    all_hold(&[silent, own])
}

#[test]
fn a_later_life_takes_no_answer_of_an_earlier_one(rt: HostRuntime) {
    holds(&rt, later_life_answers_its_own(rt.alloc()));
}
