//! A desk that reads beside the order, and one that an orderer of another replica steps with.

use crate::answers::{holds, of_stop};
use crate::frames::{Sent, frame_of};
use crate::replicas::{Given, are_given_by, parts_of_period};
use bumpalo::Bump;
use replica::{Desk, Event, Orderer};
use std::alloc::Global;
use test_bytes::{Buffer, Verdict, all_hold, both};

// Which byte of the read of client 0 is another one. Its body stands at 4 to 18, its MAC for replica 1 at 57.
static WRONG: [usize; 5] = [3, 4, 14, 18, 57];

// Frames that are no read, or no read-only one.
static OTHERS: [Sent; 3] = [Sent::Request(1), Sent::ReadOnlyTake, Sent::PrePrepare(1)];

static ANSWERS_IT: [Given; 1] = [Given::Sends(Sent::ReadReply(0, 1))];

fn gives(desk: &mut Desk, alloc: Global, bytes: &[u8], all: &[Given]) -> Verdict {
    let mut arena = Bump::new(alloc);
    let verdict = are_given_by(alloc, desk.read(alloc, bytes, &mut arena), all);
    drop(arena);
    verdict
}

fn gives_for(desk: &mut Desk, alloc: Global, frame: Buffer, all: &[Given]) -> Verdict {
    let verdict = gives(desk, alloc, frame.bytes(), all);
    frame.end(verdict)
}

// The read, of which this byte is another one.
fn wrong_read(alloc: Global, at: usize) -> Buffer {
    let mut frame = frame_of(alloc, Sent::Read);
    frame.turn(at, 1);
    frame
}

// Whether the desk gives nothing for any of these reads.
fn drops_all_wrong(desk: &mut Desk, alloc: Global) -> Verdict {
    let mut verdict = Ok(true);
    for at in &WRONG {
        verdict = both(verdict, gives_for(desk, alloc, wrong_read(alloc, *at), &[]));
    }
    verdict
}

fn drops_all_others(desk: &mut Desk, alloc: Global) -> Verdict {
    let mut verdict = gives(desk, alloc, b"", &[]);
    for sent in &OTHERS {
        verdict = both(verdict, gives_for(desk, alloc, frame_of(alloc, *sent), &[]));
    }
    verdict
}

// It stops for none of them: a read that comes after is answered.
fn goes_on(desk: &mut Desk, alloc: Global) -> Verdict {
    all_hold(&[
        drops_all_wrong(desk, alloc),
        drops_all_others(desk, alloc),
        gives_for(desk, alloc, frame_of(alloc, Sent::Read), &ANSWERS_IT),
    ])
}

fn stops_for_nothing(alloc: Global) -> Verdict {
    match parts_of_period(alloc, 16, 1) {
        Ok((orderer, mut desk)) => {
            drop(orderer);
            let verdict = goes_on(&mut *desk, alloc);
            drop(desk);
            verdict
        }
        Err(stop) => of_stop(stop),
    }
}

#[test]
fn what_is_not_heard_stops_no_desk(rt: HostRuntime) {
    holds(&rt, stops_for_nothing(rt.alloc()));
}

// ---- a desk that isn't the orderer's

static NUMBERS_IT: [Given; 1] = [Given::Sends(Sent::PrePrepare(1))];

// Whether this is given when the request comes.
fn gives_for_request(
    orderer: &mut Orderer,
    desk: &mut Desk,
    alloc: Global,
    all: &[Given],
) -> Verdict {
    let frame = frame_of(alloc, Sent::Request(1));
    let stepped = orderer.step(alloc, desk, Event::Got(frame.bytes()));
    frame.end(are_given_by(alloc, stepped, all))
}

fn gives_nothing_in_time(orderer: &mut Orderer, desk: &mut Desk, alloc: Global) -> Verdict {
    are_given_by(alloc, orderer.step(alloc, desk, Event::Timeout), &[])
}

// A request comes to the primary's orderer and the other's desk, and is lost. Nothing has changed then: the request
// gets the first number with the primary's own desk, and none waits at the other.
fn is_lost(
    orderer: &mut Orderer,
    desk: &mut Desk,
    others: &mut Orderer,
    foreign: &mut Desk,
    alloc: Global,
) -> Verdict {
    all_hold(&[
        gives_for_request(orderer, foreign, alloc, &[]),
        gives_for_request(orderer, desk, alloc, &NUMBERS_IT),
        gives_nothing_in_time(others, foreign, alloc),
    ])
}

// The other is a replica of this number in the configuration of this period.
fn loses_beside(
    orderer: &mut Orderer,
    desk: &mut Desk,
    alloc: Global,
    period: u8,
    me: u8,
) -> Verdict {
    match parts_of_period(alloc, period, me) {
        Ok((mut others, mut foreign)) => {
            let verdict = is_lost(orderer, desk, &mut *others, &mut *foreign, alloc);
            drop(others);
            drop(foreign);
            verdict
        }
        Err(stop) => of_stop(stop),
    }
}

fn loses_with(alloc: Global, period: u8, me: u8) -> Verdict {
    match parts_of_period(alloc, 16, 0) {
        Ok((mut orderer, mut desk)) => {
            let verdict = loses_beside(&mut *orderer, &mut *desk, alloc, period, me);
            drop(orderer);
            drop(desk);
            verdict
        }
        Err(stop) => of_stop(stop),
    }
}

#[test]
fn a_desk_of_another_replica_gives_nothing(rt: HostRuntime) {
    holds(&rt, loses_with(rt.alloc(), 16, 1));
    holds(&rt, loses_with(rt.alloc(), 4, 0));
}
