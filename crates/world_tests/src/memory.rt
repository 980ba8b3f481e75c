//! Memory refused in a run. In a plain run nothing is refused here. `tools/growths` refuses each growth in turn: a
//! party that lacks memory stops, and the answers that the others accept are right.

use crate::worlds::{World, are_put, config_of};
use events::{Config, EntryKind};
use schedule_text::Step;
use schedule_world::{Acceptance, Report, RunFault, run};
use std::alloc::Global;
use tuple_codec::Answer;
use tuple_text::write_answer;

static LINES: [&str; 4] = ["invoke 0 out (1)", "flush", "invoke 1 rdp (*)", "flush"];

// Client 0 calls again, after time went by and bytes came while it had no call.
static CALLED_AGAIN: [&str; 6] = [
    "invoke 0 out (1)",
    "flush",
    "tick c0",
    "bytes c0 4800",
    "invoke 0 out (2)",
    "flush",
];

// The step of the second call.
const AGAIN: usize = 4;

// By number, client 0.
const CLIENT: u16 = 256;

static ALL_CORRECT: World<'static> = World {
    faults: 1,
    clients: 2,
    period: 16,
    faulty_replicas: &[],
    faulty_clients: &[],
};

fn config(alloc: Global) -> Option<Config> {
    match config_of(alloc, &ALL_CORRECT) {
        Some(config) => Some(config),
        None => config_of(alloc, &ALL_CORRECT),
    }
}

// The steps of these lines, at the second try if memory ran out at the first one.
fn are_put_at_last(alloc: Global, lines: &[&str], steps: &mut Vec<Step>) -> bool {
    if are_put(alloc, lines, steps) {
        return true;
    }
    steps.clear();
    are_put(alloc, lines, steps)
}

// Whether the answer has this text. None if memory ran out.
fn has_text(alloc: Global, answer: &Answer<Global>, wanted: &str) -> Option<bool> {
    let mut text = Vec::new(alloc);
    match write_answer(answer, &mut text) {
        Ok(()) => Some(text.as_slice() == wanted.as_bytes()),
        Err(_) => None,
    }
}

fn is_answer(alloc: Global, answer: &Answer<Global>, wanted: &str) -> bool {
    match has_text(alloc, answer, wanted) {
        Some(has) => has,
        None => has_text(alloc, answer, wanted).unwrap_or(false),
    }
}

// Whether an answer of this text to the client's first call was accepted.
fn is_first(alloc: Global, acceptance: &Acceptance, client: u16, wanted: &str) -> bool {
    acceptance.client.number == client
        && acceptance.timestamp.0 == 1
        && is_answer(alloc, &acceptance.answer, wanted)
}

// Client 0 put the tuple and client 1 found it, or some of that didn't come about. If client 0 got no answer, client
// 1 may also have found nothing.
fn are_right(alloc: Global, report: &Report) -> bool {
    match report.accepted.as_slice() {
        [] => true,
        [only] => {
            is_first(alloc, only, 0, "done")
                || is_first(alloc, only, 1, "found (1)")
                || is_first(alloc, only, 1, "absent")
        }
        [write, read] => {
            is_first(alloc, write, 0, "done") && is_first(alloc, read, 1, "found (1)")
        }
        _ => false,
    }
}

fn is_right_or_refused(alloc: Global, ended: &Result<Report, RunFault>) -> bool {
    match ended {
        Ok(report) => are_right(alloc, report),
        Err(RunFault::NoMemory) => true,
        Err(RunFault::BadSchedule { .. }) => false,
    }
}

// Whether client 0 made its second call, and whether it sent anything after that.
fn second_call(report: &Report) -> (bool, bool) {
    let (mut called, mut sent) = (false, false);
    for entry in report.trace.as_slice() {
        match entry.kind() {
            EntryKind::Invoke(_, timestamp, _) if timestamp.0 == 2 => called = true,
            EntryKind::Sent(party, _) if called && party.number() == CLIENT => sent = true,
            _ => {}
        }
    }
    (called, sent)
}

fn has_stopped(report: &Report) -> bool {
    for party in report.stopped.as_slice() {
        if party.number() == CLIENT {
            return true;
        }
    }
    false
}

// A client that stopped in its second call has it in the trace, and sent nothing.
fn is_called(report: &Report) -> bool {
    matches!(second_call(report), (true, sent) if sent || has_stopped(report))
}

// If a party stopped before, so that the first call has no answer, that call is open and the step of the second may not
// come.
fn is_open(step: usize, before: &Report) -> bool {
    step == AGAIN && !before.stopped.is_empty() && !second_call(before).0
}

fn is_called_or_open(ended: &Result<Report, RunFault>) -> bool {
    match ended {
        Ok(report) => is_called(report),
        Err(RunFault::NoMemory) => true,
        Err(RunFault::BadSchedule { step, before }) => is_open(*step, before),
    }
}

// Whether the run in which client 0 calls again or not came out right.
fn is_end_right(alloc: Global, ended: &Result<Report, RunFault>, calls_again: bool) -> bool {
    if calls_again {
        is_called_or_open(ended)
    } else {
        is_right_or_refused(alloc, ended)
    }
}

fn is_right_after(alloc: Global, steps: &[Step], calls_again: bool) -> bool {
    let Some(config) = config(alloc) else {
        return false;
    };
    let ended = run(alloc, &config, steps);
    is_end_right(alloc, &ended, calls_again)
}

fn is_right(alloc: Global, lines: &[&str], calls_again: bool) -> bool {
    let mut steps = Vec::new(alloc);
    are_put_at_last(alloc, lines, &mut steps)
        && is_right_after(alloc, steps.as_slice(), calls_again)
}

#[test]
fn refused_memory(rt: HostRuntime) {
    assert!(rt; is_right(rt.alloc(), &LINES, false));
}

#[test]
fn refused_memory_where_a_client_calls_again(rt: HostRuntime) {
    assert!(rt; is_right(rt.alloc(), &CALLED_AGAIN, true));
}
