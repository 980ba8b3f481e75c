//! States that are ahead: they are fetched part by part, and installed.

use crate::answers::holds;
use crate::frames::Sent;
use crate::replicas::{Given, Row, runs};
use crate::states::{ROOT, State};
use std::alloc::Global;
use test_bytes::Verdict;

const NEW: State = State::Behind(0);

const ONE: State = State::Behind(1);

const TWO: State = State::Behind(2);

// A quorum is ahead. The replica fetches its state, depth first at each digest that differs, and installs it. Then it
// keeps that state, and gives up the opening one.
pub static INSTALLS: [Row<'static>; 15] = [
    (Sent::Checkpoint(1, ONE, 0), &[]),
    (Sent::Checkpoint(1, ONE, 1), &[]),
    (
        Sent::Checkpoint(1, ONE, 2),
        &[Given::Sends(Sent::Fetch(1, ROOT, 3))],
    ),
    (
        Sent::Part(1, ONE, ROOT, 0, 3),
        &[Given::Sends(Sent::Fetch(1, (1, 0), 3))],
    ),
    (
        Sent::Part(1, ONE, (1, 0), 1, 3),
        &[Given::Sends(Sent::Fetch(1, (2, 0), 3))],
    ),
    (
        Sent::Part(1, ONE, (2, 0), 2, 3),
        &[Given::Sends(Sent::Fetch(1, (1, 8), 3))],
    ),
    (
        Sent::Part(1, ONE, (1, 8), 0, 3),
        &[Given::Sends(Sent::Fetch(1, (2, 256), 3))],
    ),
    (
        Sent::Part(1, ONE, (2, 256), 1, 3),
        &[Given::Sends(Sent::Fetch(1, (1, 16), 3))],
    ),
    (
        Sent::Part(1, ONE, (1, 16), 2, 3),
        &[Given::Sends(Sent::Fetch(1, (2, 512), 3))],
    ),
    (
        Sent::Part(1, ONE, (2, 512), 0, 3),
        &[Given::Installs(1, ONE)],
    ),
    (Sent::Request(1), &[Given::Sends(Sent::Reply(1, 3))]),
    (
        Sent::Fetch(1, ROOT, 0),
        &[Given::Sends(Sent::Part(1, ONE, ROOT, 3, 0))],
    ),
    (Sent::Fetch(0, ROOT, 0), &[]),
    (Sent::Part(1, ONE, (2, 512), 0, 3), &[]),
    (Sent::Checkpoint(1, ONE, 0), &[]),
];

// A quorum is ahead, and the replica asks for the root.
static IS_AHEAD: [Row<'static>; 3] = [
    (Sent::Checkpoint(1, ONE, 0), &[]),
    (Sent::Checkpoint(1, ONE, 1), &[]),
    (
        Sent::Checkpoint(1, ONE, 2),
        &[Given::Sends(Sent::Fetch(1, ROOT, 3))],
    ),
];

// Batches committed above are executed after the installation.
static EXECUTES_BEHIND: [Row<'static>; 14] = [
    (Sent::PrePrepare(2), &[Given::Sends(Sent::Prepare(2, 3))]),
    (Sent::Prepare(2, 1), &[Given::Sends(Sent::Commit(2, 3))]),
    (Sent::Commit(2, 0), &[]),
    (Sent::Commit(2, 1), &[]),
    (Sent::Checkpoint(1, ONE, 0), &[]),
    (Sent::Checkpoint(1, ONE, 1), &[]),
    (
        Sent::Checkpoint(1, ONE, 2),
        &[Given::Sends(Sent::Fetch(1, ROOT, 3))],
    ),
    (
        Sent::Part(1, ONE, ROOT, 0, 3),
        &[Given::Sends(Sent::Fetch(1, (1, 0), 3))],
    ),
    (
        Sent::Part(1, ONE, (1, 0), 1, 3),
        &[Given::Sends(Sent::Fetch(1, (2, 0), 3))],
    ),
    (
        Sent::Part(1, ONE, (2, 0), 2, 3),
        &[Given::Sends(Sent::Fetch(1, (1, 8), 3))],
    ),
    (
        Sent::Part(1, ONE, (1, 8), 0, 3),
        &[Given::Sends(Sent::Fetch(1, (2, 256), 3))],
    ),
    (
        Sent::Part(1, ONE, (2, 256), 1, 3),
        &[Given::Sends(Sent::Fetch(1, (1, 16), 3))],
    ),
    (
        Sent::Part(1, ONE, (1, 16), 2, 3),
        &[Given::Sends(Sent::Fetch(1, (2, 512), 3))],
    ),
    (
        Sent::Part(1, ONE, (2, 512), 0, 3),
        &[
            Given::Installs(1, ONE),
            Given::Executes(2),
            Given::Sends(Sent::Reply(2, 3)),
            Given::Sends(Sent::Checkpoint(2, TWO, 3)),
        ],
    ),
];

// Parts that come while none is asked for, and parts of other states, of another number and of other places change
// nothing.
static REFUSED: [Row<'static>; 23] = [
    (Sent::Part(1, ONE, ROOT, 0, 3), &[]),
    (Sent::Checkpoint(1, ONE, 0), &[]),
    (Sent::Checkpoint(1, ONE, 1), &[]),
    (
        Sent::Checkpoint(1, ONE, 2),
        &[Given::Sends(Sent::Fetch(1, ROOT, 3))],
    ),
    (Sent::Part(1, State::NoState, ROOT, 1, 3), &[]),
    (Sent::Part(1, TWO, ROOT, 1, 3), &[]),
    (Sent::Part(2, ONE, ROOT, 1, 3), &[]),
    (Sent::Part(1, ONE, (1, 0), 1, 3), &[]),
    (
        Sent::Part(1, ONE, ROOT, 0, 3),
        &[Given::Sends(Sent::Fetch(1, (1, 0), 3))],
    ),
    (Sent::Part(1, ONE, ROOT, 0, 3), &[]),
    (Sent::Part(1, TWO, (1, 0), 1, 3), &[]),
    (Sent::Part(1, ONE, (1, 8), 1, 3), &[]),
    (Sent::Part(1, ONE, (2, 0), 1, 3), &[]),
    (
        Sent::Part(1, ONE, (1, 0), 0, 3),
        &[Given::Sends(Sent::Fetch(1, (2, 0), 3))],
    ),
    (Sent::Part(1, NEW, (2, 0), 1, 3), &[]),
    (Sent::Part(1, ONE, (2, 1), 1, 3), &[]),
    (Sent::Part(2, ONE, (2, 0), 1, 3), &[]),
    (Sent::Part(1, ONE, (1, 0), 1, 3), &[]),
    (
        Sent::Part(1, ONE, (2, 0), 0, 3),
        &[Given::Sends(Sent::Fetch(1, (1, 8), 3))],
    ),
    (
        Sent::Part(1, ONE, (1, 8), 0, 3),
        &[Given::Sends(Sent::Fetch(1, (2, 256), 3))],
    ),
    (
        Sent::Part(1, ONE, (2, 256), 1, 3),
        &[Given::Sends(Sent::Fetch(1, (1, 16), 3))],
    ),
    (
        Sent::Part(1, ONE, (1, 16), 2, 3),
        &[Given::Sends(Sent::Fetch(1, (2, 512), 3))],
    ),
    (
        Sent::Part(1, ONE, (2, 512), 0, 3),
        &[Given::Installs(1, ONE)],
    ),
];

// Pages that have the root, and are no state's: the last one counts as if it hadn't come, as often as it comes.
pub static NO_STATE: [Row<'static>; 14] = [
    (Sent::Checkpoint(1, State::NoState, 0), &[]),
    (Sent::Checkpoint(1, State::NoState, 1), &[]),
    (
        Sent::Checkpoint(1, State::NoState, 2),
        &[Given::Sends(Sent::Fetch(1, ROOT, 3))],
    ),
    (
        Sent::Part(1, State::NoState, ROOT, 0, 3),
        &[Given::Sends(Sent::Fetch(1, (1, 0), 3))],
    ),
    (
        Sent::Part(1, State::NoState, (1, 0), 1, 3),
        &[Given::Sends(Sent::Fetch(1, (2, 0), 3))],
    ),
    (
        Sent::Part(1, State::NoState, (2, 0), 2, 3),
        &[Given::Sends(Sent::Fetch(1, (1, 8), 3))],
    ),
    (
        Sent::Part(1, State::NoState, (1, 8), 0, 3),
        &[Given::Sends(Sent::Fetch(1, (2, 256), 3))],
    ),
    (
        Sent::Part(1, State::NoState, (2, 256), 1, 3),
        &[Given::Sends(Sent::Fetch(1, (1, 16), 3))],
    ),
    (
        Sent::Part(1, State::NoState, (1, 16), 2, 3),
        &[Given::Sends(Sent::Fetch(1, (2, 512), 3))],
    ),
    (Sent::Part(1, State::NoState, (2, 512), 0, 3), &[]),
    (Sent::Part(1, State::NoState, (2, 512), 2, 3), &[]),
    (Sent::Part(1, State::NoState, (2, 512), 1, 3), &[]),
    (Sent::Fetch(1, ROOT, 0), &[]),
    (
        Sent::Fetch(0, ROOT, 0),
        &[Given::Sends(Sent::Part(0, NEW, ROOT, 3, 0))],
    ),
];

// Pages of the state of another number than was asked for.
static OF_ANOTHER_NUMBER: [Row<'static>; 11] = [
    (Sent::Checkpoint(2, ONE, 0), &[]),
    (Sent::Checkpoint(2, ONE, 1), &[]),
    (
        Sent::Checkpoint(2, ONE, 2),
        &[Given::Sends(Sent::Fetch(2, ROOT, 3))],
    ),
    (
        Sent::Part(2, ONE, ROOT, 0, 3),
        &[Given::Sends(Sent::Fetch(2, (1, 0), 3))],
    ),
    (
        Sent::Part(2, ONE, (1, 0), 1, 3),
        &[Given::Sends(Sent::Fetch(2, (2, 0), 3))],
    ),
    (
        Sent::Part(2, ONE, (2, 0), 2, 3),
        &[Given::Sends(Sent::Fetch(2, (1, 8), 3))],
    ),
    (
        Sent::Part(2, ONE, (1, 8), 0, 3),
        &[Given::Sends(Sent::Fetch(2, (2, 256), 3))],
    ),
    (
        Sent::Part(2, ONE, (2, 256), 1, 3),
        &[Given::Sends(Sent::Fetch(2, (1, 16), 3))],
    ),
    (
        Sent::Part(2, ONE, (1, 16), 2, 3),
        &[Given::Sends(Sent::Fetch(2, (2, 512), 3))],
    ),
    (Sent::Part(2, ONE, (2, 512), 0, 3), &[]),
    (Sent::Part(2, ONE, (2, 512), 2, 3), &[]),
];

// The pages of a state that knows less of a client than the own one.
static TIME_FALLS: [Row<'static>; 17] = [
    (Sent::PrePrepare(1), &[Given::Sends(Sent::Prepare(1, 3))]),
    (Sent::Prepare(1, 1), &[Given::Sends(Sent::Commit(1, 3))]),
    (Sent::Commit(1, 0), &[]),
    (
        Sent::Commit(1, 1),
        &[
            Given::Executes(1),
            Given::Sends(Sent::Reply(1, 3)),
            Given::Sends(Sent::Checkpoint(1, ONE, 3)),
        ],
    ),
    (Sent::Checkpoint(2, State::Forgetful, 0), &[]),
    (Sent::Checkpoint(2, State::Forgetful, 1), &[]),
    (
        Sent::Checkpoint(2, State::Forgetful, 2),
        &[Given::Sends(Sent::Fetch(2, ROOT, 3))],
    ),
    (
        Sent::Part(2, State::Forgetful, ROOT, 0, 3),
        &[Given::Sends(Sent::Fetch(2, (1, 0), 3))],
    ),
    (
        Sent::Part(2, State::Forgetful, (1, 0), 1, 3),
        &[Given::Sends(Sent::Fetch(2, (2, 1), 3))],
    ),
    (
        Sent::Part(2, State::Forgetful, (2, 1), 2, 3),
        &[Given::Sends(Sent::Fetch(2, (1, 8), 3))],
    ),
    (
        Sent::Part(2, State::Forgetful, (1, 8), 0, 3),
        &[Given::Sends(Sent::Fetch(2, (2, 256), 3))],
    ),
    (
        Sent::Part(2, State::Forgetful, (2, 256), 1, 3),
        &[Given::Sends(Sent::Fetch(2, (2, 257), 3))],
    ),
    (
        Sent::Part(2, State::Forgetful, (2, 257), 2, 3),
        &[Given::Sends(Sent::Fetch(2, (1, 16), 3))],
    ),
    (
        Sent::Part(2, State::Forgetful, (1, 16), 0, 3),
        &[Given::Sends(Sent::Fetch(2, (2, 512), 3))],
    ),
    (Sent::Part(2, State::Forgetful, (2, 512), 1, 3), &[]),
    (Sent::Part(2, State::Forgetful, (2, 512), 0, 3), &[]),
    (Sent::Request(1), &[Given::Sends(Sent::Reply(1, 3))]),
];

// A newer checkpoint overtakes. Fetched pages serve on, and the page that was given back is fetched again.
static OVERTAKES: [Row<'static>; 10] = [
    (Sent::Checkpoint(2, TWO, 0), &[]),
    (Sent::Checkpoint(2, TWO, 1), &[]),
    (
        Sent::Checkpoint(2, TWO, 2),
        &[Given::Sends(Sent::Fetch(2, ROOT, 3))],
    ),
    (
        Sent::Part(2, TWO, ROOT, 0, 3),
        &[Given::Sends(Sent::Fetch(2, (1, 0), 3))],
    ),
    (
        Sent::Part(2, TWO, (1, 0), 1, 3),
        &[Given::Sends(Sent::Fetch(2, (2, 1), 3))],
    ),
    (
        Sent::Part(2, TWO, (2, 1), 2, 3),
        &[Given::Sends(Sent::Fetch(2, (1, 8), 3))],
    ),
    (
        Sent::Part(2, TWO, (1, 8), 0, 3),
        &[Given::Sends(Sent::Fetch(2, (2, 257), 3))],
    ),
    (
        Sent::Part(2, TWO, (2, 257), 1, 3),
        &[Given::Sends(Sent::Fetch(2, (1, 16), 3))],
    ),
    (
        Sent::Part(2, TWO, (1, 16), 2, 3),
        &[Given::Sends(Sent::Fetch(2, (2, 512), 3))],
    ),
    (
        Sent::Part(2, TWO, (2, 512), 0, 3),
        &[Given::Installs(2, TWO)],
    ),
];

// And in the midst of a transfer: an answer for the older one comes too late.
static OVERTAKES_EARLY: [Row<'static>; 18] = [
    (Sent::Checkpoint(1, ONE, 0), &[]),
    (Sent::Checkpoint(1, ONE, 1), &[]),
    (
        Sent::Checkpoint(1, ONE, 2),
        &[Given::Sends(Sent::Fetch(1, ROOT, 3))],
    ),
    (
        Sent::Part(1, ONE, ROOT, 0, 3),
        &[Given::Sends(Sent::Fetch(1, (1, 0), 3))],
    ),
    (
        Sent::Part(1, ONE, (1, 0), 1, 3),
        &[Given::Sends(Sent::Fetch(1, (2, 0), 3))],
    ),
    (
        Sent::Part(1, ONE, (2, 0), 2, 3),
        &[Given::Sends(Sent::Fetch(1, (1, 8), 3))],
    ),
    (Sent::Checkpoint(2, TWO, 0), &[]),
    (Sent::Checkpoint(2, TWO, 1), &[]),
    (
        Sent::Checkpoint(2, TWO, 2),
        &[Given::Sends(Sent::Fetch(2, ROOT, 3))],
    ),
    (Sent::Part(1, ONE, (1, 8), 0, 3), &[]),
    (
        Sent::Part(2, TWO, ROOT, 0, 3),
        &[Given::Sends(Sent::Fetch(2, (1, 0), 3))],
    ),
    (
        Sent::Part(2, TWO, (1, 0), 1, 3),
        &[Given::Sends(Sent::Fetch(2, (2, 1), 3))],
    ),
    (
        Sent::Part(2, TWO, (2, 1), 2, 3),
        &[Given::Sends(Sent::Fetch(2, (1, 8), 3))],
    ),
    (
        Sent::Part(2, TWO, (1, 8), 0, 3),
        &[Given::Sends(Sent::Fetch(2, (2, 256), 3))],
    ),
    (
        Sent::Part(2, TWO, (2, 256), 1, 3),
        &[Given::Sends(Sent::Fetch(2, (2, 257), 3))],
    ),
    (
        Sent::Part(2, TWO, (2, 257), 2, 3),
        &[Given::Sends(Sent::Fetch(2, (1, 16), 3))],
    ),
    (
        Sent::Part(2, TWO, (1, 16), 0, 3),
        &[Given::Sends(Sent::Fetch(2, (2, 512), 3))],
    ),
    (
        Sent::Part(2, TWO, (2, 512), 1, 3),
        &[Given::Installs(2, TWO)],
    ),
];

// Executions reach the number first, and the transfer is over.
static REACHES: [Row<'static>; 11] = [
    (Sent::Checkpoint(1, ONE, 0), &[]),
    (Sent::Checkpoint(1, ONE, 1), &[]),
    (
        Sent::Checkpoint(1, ONE, 2),
        &[Given::Sends(Sent::Fetch(1, ROOT, 3))],
    ),
    (
        Sent::Part(1, ONE, ROOT, 0, 3),
        &[Given::Sends(Sent::Fetch(1, (1, 0), 3))],
    ),
    (Sent::PrePrepare(1), &[Given::Sends(Sent::Prepare(1, 3))]),
    (Sent::Prepare(1, 1), &[Given::Sends(Sent::Commit(1, 3))]),
    (Sent::Commit(1, 0), &[]),
    (
        Sent::Commit(1, 1),
        &[
            Given::Executes(1),
            Given::Sends(Sent::Reply(1, 3)),
            Given::Sends(Sent::Checkpoint(1, ONE, 3)),
        ],
    ),
    (Sent::Part(1, ONE, (1, 0), 0, 3), &[]),
    (Sent::Fetch(0, ROOT, 0), &[]),
    (
        Sent::Fetch(1, (2, 0), 0),
        &[Given::Sends(Sent::Part(1, ONE, (2, 0), 3, 0))],
    ),
];

// Executions below the number change the pages that differ: those that number 1 made are fetched no more.
static GOES_ON: [Row<'static>; 14] = [
    (Sent::Checkpoint(2, TWO, 0), &[]),
    (Sent::Checkpoint(2, TWO, 1), &[]),
    (
        Sent::Checkpoint(2, TWO, 2),
        &[Given::Sends(Sent::Fetch(2, ROOT, 3))],
    ),
    (
        Sent::Part(2, TWO, ROOT, 0, 3),
        &[Given::Sends(Sent::Fetch(2, (1, 0), 3))],
    ),
    (Sent::PrePrepare(1), &[Given::Sends(Sent::Prepare(1, 3))]),
    (Sent::Prepare(1, 1), &[Given::Sends(Sent::Commit(1, 3))]),
    (Sent::Commit(1, 0), &[]),
    (
        Sent::Commit(1, 1),
        &[
            Given::Executes(1),
            Given::Sends(Sent::Reply(1, 3)),
            Given::Sends(Sent::Checkpoint(1, ONE, 3)),
        ],
    ),
    (
        Sent::Part(2, TWO, (1, 0), 0, 3),
        &[Given::Sends(Sent::Fetch(2, (2, 1), 3))],
    ),
    (
        Sent::Part(2, TWO, (2, 1), 1, 3),
        &[Given::Sends(Sent::Fetch(2, (1, 8), 3))],
    ),
    (
        Sent::Part(2, TWO, (1, 8), 2, 3),
        &[Given::Sends(Sent::Fetch(2, (2, 257), 3))],
    ),
    (
        Sent::Part(2, TWO, (2, 257), 0, 3),
        &[Given::Sends(Sent::Fetch(2, (1, 16), 3))],
    ),
    (
        Sent::Part(2, TWO, (1, 16), 1, 3),
        &[Given::Sends(Sent::Fetch(2, (2, 512), 3))],
    ),
    (
        Sent::Part(2, TWO, (2, 512), 2, 3),
        &[Given::Installs(2, TWO)],
    ),
];

// What is given when time goes by, twice: nothing, or the part that is asked for again.
static IS_STILL: [Row<'static>; 2] = [(Sent::Nothing, &[]), (Sent::Nothing, &[])];

static ASKS_FOR_ROOT: [Row<'static>; 2] = [
    (Sent::Nothing, &[Given::Sends(Sent::Fetch(1, ROOT, 3))]),
    (Sent::Nothing, &[Given::Sends(Sent::Fetch(1, ROOT, 3))]),
];

static ASKS_FOR_HEADER_OF_1: [Row<'static>; 2] = [
    (Sent::Nothing, &[Given::Sends(Sent::Fetch(1, (2, 512), 3))]),
    (Sent::Nothing, &[Given::Sends(Sent::Fetch(1, (2, 512), 3))]),
];

static ASKS_FOR_HEADER_OF_2: [Row<'static>; 2] = [
    (Sent::Nothing, &[Given::Sends(Sent::Fetch(2, (2, 512), 3))]),
    (Sent::Nothing, &[Given::Sends(Sent::Fetch(2, (2, 512), 3))]),
];

// Replica 3 gives all this.
fn fetches(alloc: Global, tables: &[&[Row<'_>]]) -> Verdict {
    runs(alloc, 3, 1, tables)
}

#[test]
fn a_state_is_fetched(rt: HostRuntime) {
    holds(&rt, fetches(rt.alloc(), &[&INSTALLS, &IS_STILL]));
    holds(&rt, fetches(rt.alloc(), &[&EXECUTES_BEHIND, &IS_STILL]));
}

#[test]
fn parts_that_are_refused(rt: HostRuntime) {
    holds(&rt, fetches(rt.alloc(), &[&REFUSED, &IS_STILL]));
}

#[test]
fn pages_of_no_state(rt: HostRuntime) {
    holds(
        &rt,
        fetches(rt.alloc(), &[&NO_STATE, &ASKS_FOR_HEADER_OF_1]),
    );
    holds(
        &rt,
        fetches(rt.alloc(), &[&OF_ANOTHER_NUMBER, &ASKS_FOR_HEADER_OF_2]),
    );
    holds(
        &rt,
        fetches(rt.alloc(), &[&TIME_FALLS, &ASKS_FOR_HEADER_OF_2]),
    );
}

#[test]
fn transfers_that_are_overtaken(rt: HostRuntime) {
    holds(
        &rt,
        fetches(rt.alloc(), &[&NO_STATE, &OVERTAKES, &IS_STILL]),
    );
    holds(&rt, fetches(rt.alloc(), &[&OVERTAKES_EARLY, &IS_STILL]));
}

#[test]
fn executions_beside_a_transfer(rt: HostRuntime) {
    holds(&rt, fetches(rt.alloc(), &[&REACHES, &IS_STILL]));
    holds(&rt, fetches(rt.alloc(), &[&GOES_ON, &IS_STILL]));
}

#[test]
fn time_asks_again(rt: HostRuntime) {
    holds(&rt, fetches(rt.alloc(), &[&IS_AHEAD, &ASKS_FOR_ROOT]));
}
