//! Memory refused in an event. In a plain run nothing is refused here. `tools/growths` refuses each growth in turn,
//! and each test passes at each: the replica stops in that event and gives nothing from then on, or gives the
//! expected outputs.

use crate::answers::{holds, of_stop};
use crate::checkpoints::{BECOMES_STABLE, FREES_NUMBERS};
use crate::frames::{Sent, frame_of};
use crate::phases::{AGAIN_AT_BACKUP, AGAIN_AT_PRIMARY, AT_BACKUP, AT_PRIMARY, READS};
use crate::replicas::{Given, Row, are_given, replica_of_period};
use crate::states::{ROOT, State};
use crate::transfers::{INSTALLS, NO_STATE};
use crate::views::{BEGINS, IN_TIME, JOINS};
use events::{Outputs, Stop};
use replica::{Event, Replica};
use std::alloc::Global;
use terms::NoMemory;
use test_bytes::{Buffer, Verdict, both};

// Whether the replica stopped because memory ran out, and says so from then on.
fn has_stopped(replica: &mut Replica, alloc: Global, stop: Stop) -> bool {
    stop == Stop::NoMemory
        && replica.is_stopped()
        && replica.step(alloc, Event::Timeout).err() == Some(Stop::Stopped)
        && replica.step(alloc, Event::Got(b"")).err() == Some(Stop::Stopped)
}

fn frame(alloc: Global, sent: Sent) -> Buffer {
    let frame = frame_of(alloc, sent);
    if frame.is_whole() {
        frame
    } else {
        frame_of(alloc, sent)
    }
}

// At the second try if memory ran out at the first one.
fn are_right(alloc: Global, outputs: &Outputs, all: &[Given]) -> Verdict {
    match are_given(alloc, outputs, all) {
        Err(NoMemory) => are_given(alloc, outputs, all),
        first => first,
    }
}

// These give none where the replica stops as it should.
fn stops(replica: &mut Replica, alloc: Global, stop: Stop) -> Option<Verdict> {
    if has_stopped(replica, alloc, stop) {
        None
    } else {
        Some(Ok(false))
    }
}

fn gives_or_stops_at(
    replica: &mut Replica,
    alloc: Global,
    event: Event<'_>,
    all: &[Given],
) -> Option<Verdict> {
    match replica.step(alloc, event) {
        Ok(outputs) => {
            let verdict = are_right(alloc, &outputs, all);
            drop(outputs);
            Some(both(verdict, Ok(!replica.is_stopped())))
        }
        Err(stop) => stops(replica, alloc, stop),
    }
}

fn gives_or_stops_for(
    replica: &mut Replica,
    alloc: Global,
    sent: Sent,
    all: &[Given],
) -> Option<Verdict> {
    let frame = frame(alloc, sent);
    let came = gives_or_stops_at(replica, alloc, Event::Got(frame.bytes()), all);
    drop(frame);
    came
}

fn gives_or_stops(
    replica: &mut Replica,
    alloc: Global,
    sent: Sent,
    all: &[Given],
) -> Option<Verdict> {
    match sent {
        Sent::Nothing => gives_or_stops_at(replica, alloc, Event::Timeout, all),
        _ => gives_or_stops_for(replica, alloc, sent, all),
    }
}

// Whether each frame gives the expected outputs, up to one in which the replica stops.
fn gives_all_or_stops(replica: &mut Replica, alloc: Global, rows: &[Row<'_>]) -> Verdict {
    for (sent, all) in rows {
        match gives_or_stops(replica, alloc, *sent, all) {
            Some(Ok(true)) => {}
            Some(other) => return other,
            None => return Ok(true),
        }
    }
    Ok(true)
}

// At the second try if memory ran out at the first one.
fn made(alloc: Global, period: u8, me: u8) -> Result<Box<Replica>, Stop> {
    match replica_of_period(alloc, period, me) {
        Err(Stop::NoMemory) => replica_of_period(alloc, period, me),
        first => first,
    }
}

fn runs_or_stops(alloc: Global, me: u8, period: u8, rows: &[Row<'_>]) -> Verdict {
    match made(alloc, period, me) {
        Ok(mut replica) => {
            let verdict = gives_all_or_stops(&mut *replica, alloc, rows);
            drop(replica);
            verdict
        }
        Err(stop) => of_stop(stop),
    }
}

#[test]
fn refused_memory_at_the_primary(rt: HostRuntime) {
    holds(&rt, runs_or_stops(rt.alloc(), 0, 16, &AT_PRIMARY));
}

#[test]
fn refused_memory_at_a_backup(rt: HostRuntime) {
    holds(&rt, runs_or_stops(rt.alloc(), 1, 16, &AT_BACKUP));
}

#[test]
fn refused_memory_where_a_request_comes_again(rt: HostRuntime) {
    holds(&rt, runs_or_stops(rt.alloc(), 0, 16, &AGAIN_AT_PRIMARY));
    holds(&rt, runs_or_stops(rt.alloc(), 1, 16, &AGAIN_AT_BACKUP));
}

#[test]
fn refused_memory_at_checkpoints(rt: HostRuntime) {
    holds(&rt, runs_or_stops(rt.alloc(), 1, 1, &BECOMES_STABLE));
    holds(&rt, runs_or_stops(rt.alloc(), 0, 1, &FREES_NUMBERS));
}

#[test]
fn refused_memory_at_reads(rt: HostRuntime) {
    holds(&rt, runs_or_stops(rt.alloc(), 1, 16, &READS));
}

#[test]
fn refused_memory_where_states_are_fetched(rt: HostRuntime) {
    holds(&rt, runs_or_stops(rt.alloc(), 3, 1, &INSTALLS));
    holds(&rt, runs_or_stops(rt.alloc(), 3, 1, &NO_STATE));
}

#[test]
fn refused_memory_where_views_change(rt: HostRuntime) {
    holds(&rt, runs_or_stops(rt.alloc(), 2, 16, &JOINS));
}

#[test]
fn refused_memory_where_a_view_begins(rt: HostRuntime) {
    holds(&rt, runs_or_stops(rt.alloc(), 3, 16, &BEGINS));
}

const ONE: State = State::Behind(1);

// Three replicas send a checkpoint ahead of replica 3, and time goes by.
static ASKS_AGAIN: [Row<'static>; 4] = [
    (Sent::Checkpoint(1, ONE, 0), &[]),
    (Sent::Checkpoint(1, ONE, 1), &[]),
    (
        Sent::Checkpoint(1, ONE, 2),
        &[Given::Sends(Sent::Fetch(1, ROOT, 3))],
    ),
    (Sent::Nothing, &[Given::Sends(Sent::Fetch(1, ROOT, 3))]),
];

#[test]
fn refused_memory_where_time_goes_by(rt: HostRuntime) {
    holds(&rt, runs_or_stops(rt.alloc(), 2, 16, &IN_TIME));
    holds(&rt, runs_or_stops(rt.alloc(), 3, 1, &ASKS_AGAIN));
}
