//! Which replies end a call, and when a read falls back to an ordered request.

use crate::answers::{all_hold, holds};
use crate::client::clients::{
    Given, Input, OUT, OUT_ORDERED, RD_ALL, RD_ALL_READ, RDP, RDP_ORDERED, RDP_READ, Row, asks,
    gives, new_client,
};
use client_cert::Client;
use std::alloc::Global;
use terms::NoMemory;

// An operation, its first request, and the inputs after it.
pub type Case<'a> = (&'a [u8], &'a str, &'a [Row<'a>]);

/// An ordered call and a read, with the replies that end them.
pub static REPLIES: [Case<'static>; 2] = [
    // f + 1 equal replies are not enough, and a replica counts once. A reply with another number, answer, mode or
    // timestamp is not equal, and replica 4 is none of four.
    (
        OUT,
        OUT_ORDERED,
        &[
            (Input::OrderedDone(0, 3), Given::Nothing),
            (Input::OrderedDone(0, 3), Given::Nothing),
            (Input::OrderedDone(2, 3), Given::Nothing),
            (Input::OrderedDone(1, 4), Given::Nothing),
            (Input::Ordered(1, 3), Given::Nothing),
            (Input::ReadDone(1, 3), Given::Nothing),
            (Input::Next(1, 3), Given::Nothing),
            (Input::OrderedDone(4, 3), Given::Nothing),
            (Input::OrderedDone(3, 3), Given::Accepts(true)),
            (Input::OrderedDone(1, 3), Given::Nothing),
        ],
    ),
    // The third equal read-only reply ends a read.
    (
        RDP,
        RDP_READ,
        &[
            (Input::Read(0, 5), Given::Nothing),
            (Input::Read(3, 5), Given::Nothing),
            (Input::Read(1, 5), Given::Accepts(false)),
            (Input::Read(2, 5), Given::Nothing),
        ],
    ),
];

// All replicas answer, and no three agree. The client asks for the read in its order, once, and ordered replies end
// it.
pub static FALL_BACK: Case<'static> = (
    RDP,
    RDP_READ,
    &[
        (Input::Read(0, 5), Given::Nothing),
        (Input::Read(1, 9), Given::Nothing),
        (Input::Read(2, 5), Given::Nothing),
        (Input::Read(3, 9), Given::Asks(RDP_ORDERED)),
        (Input::Read(3, 10), Given::Nothing),
        (Input::Ordered(0, 11), Given::Nothing),
        (Input::Ordered(1, 11), Given::Nothing),
        (Input::Ordered(3, 11), Given::Accepts(false)),
    ],
);

// A request that is sent again goes ordered, and then no read falls back.
pub static RETRIED: Case<'static> = (
    RDP,
    RDP_READ,
    &[
        (Input::Read(0, 5), Given::Nothing),
        (Input::Retry, Given::Asks(RDP_ORDERED)),
        (Input::Retry, Given::Asks(RDP_ORDERED)),
        (Input::Read(1, 9), Given::Nothing),
        (Input::Read(2, 5), Given::Nothing),
        (Input::Read(3, 9), Given::Nothing),
        (Input::Ordered(3, 9), Given::Nothing),
        (Input::Read(3, 5), Given::Accepts(false)),
        (Input::Retry, Given::Nothing),
    ],
);

static CASES: [Case<'static>; 4] = [
    // The third equal read-only reply ends a read.
    (
        RD_ALL,
        RD_ALL_READ,
        &[
            (Input::Read(0, 5), Given::Nothing),
            (Input::Read(3, 5), Given::Nothing),
            (Input::Read(1, 5), Given::Accepts(false)),
            (Input::Read(2, 5), Given::Nothing),
        ],
    ),
    // Replica 0's reply twice and replica 2's are two votes.
    (
        RDP,
        RDP_READ,
        &[
            (Input::Read(0, 5), Given::Nothing),
            (Input::Read(0, 5), Given::Nothing),
            (Input::Read(2, 5), Given::Nothing),
            (Input::Read(3, 5), Given::Accepts(false)),
        ],
    ),
    // Two equal replies of either mode are no three. After the ordered request a read-only reply still counts, in
    // place of that replica's earlier one.
    (
        RDP,
        RDP_READ,
        &[
            (Input::Read(0, 5), Given::Nothing),
            (Input::Read(1, 9), Given::Nothing),
            (Input::Read(2, 5), Given::Nothing),
            (Input::Read(3, 9), Given::Asks(RDP_ORDERED)),
            (Input::Ordered(1, 5), Given::Nothing),
            (Input::Ordered(3, 5), Given::Nothing),
            (Input::Read(1, 5), Given::Accepts(false)),
        ],
    ),
    // Answers of one number that differ.
    (
        RDP,
        RDP_READ,
        &[
            (Input::ReadDone(3, 5), Given::Nothing),
            (Input::Read(2, 5), Given::Nothing),
            (Input::ReadDone(1, 5), Given::Nothing),
            (Input::Read(0, 5), Given::Asks(RDP_ORDERED)),
        ],
    ),
];

fn gives_all(client: &mut Client, alloc: Global, rows: &[Row<'_>]) -> Result<bool, NoMemory> {
    for row in rows {
        if !gives(client, alloc, *row)? {
            return Ok(false);
        }
    }
    Ok(true)
}

fn goes_as_told(alloc: Global, (text, first, rows): Case<'_>) -> Result<bool, NoMemory> {
    let mut client = new_client(alloc)?;
    let asked = asks(&mut *client, alloc, text, first);
    let answer = all_hold(&[asked, gives_all(&mut *client, alloc, rows)]);
    drop(client);
    answer
}

fn all_go_as_told(alloc: Global, cases: &[Case<'_>]) -> Result<bool, NoMemory> {
    for &case in cases {
        if !goes_as_told(alloc, case)? {
            return Ok(false);
        }
    }
    Ok(true)
}

#[test]
fn replies_count(rt: HostRuntime) {
    holds(
        &rt,
        all_hold(&[
            all_go_as_told(rt.alloc(), &REPLIES),
            all_go_as_told(rt.alloc(), &CASES),
        ]),
    );
}

#[test]
fn reads_are_asked_for_in_order(rt: HostRuntime) {
    holds(
        &rt,
        all_hold(&[
            goes_as_told(rt.alloc(), FALL_BACK),
            goes_as_told(rt.alloc(), RETRIED),
        ]),
    );
}
