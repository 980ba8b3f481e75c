//! Runs of four replicas and two clients: client 0 puts a tuple, and client 1 reads it afterwards.

use crate::left::{Call, Outcome, Tally, assert_right, under_each_size};
use events::Config;
use schedule_text::{Step, read_step};
use schedule_world::{Acceptance, Report, RunFault, run};
use std::alloc::Global;
use std::rt::Files;
use test_bytes::FRAME_SEED;
use tuple_codec::Answer;

static PLAIN: [&str; 4] = ["invoke 0 out (1)", "flush", "invoke 1 rdp (*)", "flush"];

// Client 0 asks again, and client 1 asks for the same in order.
static ASKED_AGAIN: [&str; 6] = [
    "invoke 0 out (1)",
    "tick c0",
    "flush",
    "invoke 1 rdp (*)",
    "tick c1",
    "flush",
];

// Time goes by at replicas 1 to 3, for whom the request waits: replica 1 makes the new view.
static IN_VIEW_1: [&str; 10] = [
    "invoke 0 out (1)",
    "deliver 0 r1",
    "deliver 0 r2",
    "deliver 0 r3",
    "tick r1",
    "tick r2",
    "tick r3",
    "flush",
    "invoke 1 rdp (*)",
    "flush",
];

// With a checkpoint at each number. Replicas 0 to 2 carry the call: its request, the pre-prepare, prepares of 1 and 2,
// and commits of 2, 0 and 1. Replica 3 gets their checkpoints alone. It fetches seven parts from replica 0, and
// installs them.
static FETCHED: [&str; 34] = [
    "invoke 0 out (1)",
    "deliver 0 r0",
    "deliver 1 r1",
    "deliver 1 r2",
    "deliver 2 r0",
    "deliver 2 r2",
    "deliver 3 r0",
    "deliver 3 r1",
    "deliver 4 r0",
    "deliver 4 r1",
    "deliver 5 r1",
    "deliver 5 r2",
    "deliver 6 r0",
    "deliver 6 r2",
    "deliver 8 r3",
    "deliver 10 r3",
    "deliver 12 r3",
    "deliver 13 r0",
    "deliver 14 r3",
    "deliver 15 r0",
    "deliver 16 r3",
    "deliver 17 r0",
    "deliver 18 r3",
    "deliver 19 r0",
    "deliver 20 r3",
    "deliver 21 r0",
    "deliver 22 r3",
    "deliver 23 r0",
    "deliver 24 r3",
    "deliver 25 r0",
    "deliver 26 r3",
    "flush",
    "invoke 1 rdp (*)",
    "flush",
];

// The period of checkpoints, how many crumbs there are and how long they are, and the lines.
type Row<'a> = (u8, usize, usize, &'a [&'a str]);

#[derive(Drop)]
struct Runs<'a> {
    config: &'a Config,
    steps: &'a [Step],
}

impl Call for Runs<'_> {
    fn call(&mut self, alloc: Global) -> Outcome {
        end_of(&run(alloc, self.config, self.steps))
    }
}

fn end_of(ended: &Result<Report, RunFault>) -> Outcome {
    match ended {
        Ok(report) => outcome_of(report),
        Err(RunFault::NoMemory) => Outcome::Refused,
        Err(RunFault::BadSchedule { before, .. }) => outcome_before(before),
    }
}

// A step may not come only if a party has stopped before it, and so sent no such frame.
fn outcome_before(report: &Report) -> Outcome {
    match outcome_of(report) {
        Outcome::Refused => Outcome::Refused,
        Outcome::Done | Outcome::Wrong => Outcome::Wrong,
    }
}

// Client 0 put the tuple and client 1 found it, or parties stopped and some of that didn't come about. If client 0
// got no answer, client 1 may also have found nothing.
fn outcome_of(report: &Report) -> Outcome {
    let has_stopped = !report.stopped.is_empty();
    match report.accepted.as_slice() {
        [write, read] if is_put(write) && is_found(read) => Outcome::Done,
        [] if has_stopped => Outcome::Refused,
        [only] if has_stopped && (is_put(only) || is_found(only) || is_absent(only)) => {
            Outcome::Refused
        }
        _ => Outcome::Wrong,
    }
}

fn is_put(acceptance: &Acceptance) -> bool {
    acceptance.client.number == 0 && matches!(acceptance.answer, Answer::Done)
}

fn is_found(acceptance: &Acceptance) -> bool {
    acceptance.client.number == 1 && matches!(acceptance.answer, Answer::Found(_))
}

fn is_absent(acceptance: &Acceptance) -> bool {
    acceptance.client.number == 1 && matches!(acceptance.answer, Answer::Absent)
}

// There is room before the step is read: else what refuses it would have to be dropped too, and each drop costs a
// proof.
fn is_line_put(alloc: Global, line: &str, steps: &mut Vec<Step>) -> bool {
    let Ok(()) = steps.reserve(1) else {
        return false;
    };
    match read_step(alloc, line.as_bytes()) {
        Ok(Some(step)) => {
            steps.push_reserved(step);
            true
        }
        _ => false,
    }
}

fn are_put(alloc: Global, lines: &[&str], steps: &mut Vec<Step>) -> bool {
    for line in lines {
        if !is_line_put(alloc, line, steps) {
            return false;
        }
    }
    true
}

fn tally_with<R: Files>(
    rt: &R,
    alloc: Global,
    (_, crumbs, len, lines): Row<'_>,
    config: &Config,
) -> Option<Tally> {
    let mut steps = Vec::new(alloc);
    if are_put(alloc, lines, &mut steps) {
        let steps = steps.as_slice();
        under_each_size(rt, alloc, crumbs, len, &mut Runs { config, steps })
    } else {
        Tally::unprepared()
    }
}

fn tally_of<R: Files>(rt: &R, alloc: Global, row: Row<'_>) -> Option<Tally> {
    match Config::new(1, 2, FRAME_SEED, row.0, Vec::new(alloc), Vec::new(alloc)) {
        Ok(config) => tally_with(rt, alloc, row, &config),
        Err(_) => Tally::unprepared(),
    }
}

#[test]
fn runs_under_each_size(rt: HostRuntime) {
    assert_right(&rt, tally_of(&rt, rt.alloc(), (16, 256, 1 << 14, &PLAIN)));
}

#[test]
fn runs_that_ask_again(rt: HostRuntime) {
    assert_right(
        &rt,
        tally_of(&rt, rt.alloc(), (16, 128, 1 << 14, &ASKED_AGAIN)),
    );
}

#[test]
fn runs_that_change_their_view(rt: HostRuntime) {
    assert_right(
        &rt,
        tally_of(&rt, rt.alloc(), (16, 24, 1 << 16, &IN_VIEW_1)),
    );
}

#[test]
fn runs_that_fetch_a_state(rt: HostRuntime) {
    assert_right(&rt, tally_of(&rt, rt.alloc(), (1, 128, 1 << 14, &FETCHED)));
}
