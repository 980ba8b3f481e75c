//! Frames with a MAC that was changed on the way count for nothing.

use crate::reports::sent;
use crate::runs::{Check, Run, is_delivery_put, steps_come_out};
use crate::worlds::{ONE_CLIENT, are_put, config_of};
use events::{Entry, EntryKind};
use schedule_text::Step;
use schedule_world::{Report, RunFault, run};
use std::alloc::Global;
use terms::Party;

// Changes the last byte of the MAC for the party, and answers whether there is one. A frame ends with its
// receivers, each before its MAC: 34 bytes each.
fn forge(frame: &mut [u8], party: Party) -> bool {
    let number = party.number().to_be_bytes();
    for receiver in frame.rchunks_exact_mut(34) {
        if receiver.starts_with(&number) {
            if let Some(last) = receiver.last_mut() {
                *last = last.wrapping_add(1);
            }
            return true;
        }
    }
    false
}

// The number of a frame that was sent.
fn number_of(report: &Report, wanted: &[u8]) -> Option<u64> {
    let mut number = 0u64;
    for entry in report.trace.as_slice() {
        if let Some((_, frame)) = sent(entry) {
            if frame == wanted {
                return Some(number);
            }
            number = number.saturating_add(1);
        }
    }
    None
}

fn is_forgery_put(alloc: Global, frame: &[u8], party: Party, steps: &mut Vec<Step>) -> bool {
    let Ok(()) = steps.reserve(1) else {
        return false;
    };
    let Ok(mut bytes) = Vec::from_slice(alloc, frame) else {
        return false;
    };
    let is_forged = forge(bytes.as_mut_slice(), party);
    steps.push_reserved(Step::Feed { party, bytes });
    is_forged
}

// The party gets the frame, forged and then as it is.
fn are_both_put(
    alloc: Global,
    report: &Report,
    bytes: &[u8],
    party: Party,
    steps: &mut Vec<Step>,
) -> bool {
    let Some(frame) = number_of(report, bytes) else {
        return false;
    };
    is_forgery_put(alloc, bytes, party, steps) && is_delivery_put(frame, party, steps)
}

// The two calls of client 0.
fn is_call_put(alloc: Global, timestamp: u64, steps: &mut Vec<Step>) -> bool {
    if timestamp == 1 {
        are_put(alloc, &["invoke 0 out (1)"], steps)
    } else {
        are_put(alloc, &["invoke 0 rdp (*)"], steps)
    }
}

fn is_entry_put(alloc: Global, report: &Report, entry: &Entry, steps: &mut Vec<Step>) -> bool {
    match entry.kind() {
        EntryKind::Invoke(_, timestamp, _) => is_call_put(alloc, timestamp.0, steps),
        EntryKind::Got(party, frame) => {
            are_both_put(alloc, report, frame.as_slice(), *party, steps)
        }
        _ => true,
    }
}

// The calls of a run and its deliveries, in its order, with a forgery of each frame before it.
fn are_forged_put(alloc: Global, report: &Report, steps: &mut Vec<Step>) -> bool {
    for entry in report.trace.as_slice() {
        if !is_entry_put(alloc, report, entry, steps) {
            return false;
        }
    }
    true
}

// Without forged frames there are 66 entries, of which 40 are of frames that are got. The positions come from an
// implementation in Python.
static FORGED: Run<'static> = Run {
    world: ONE_CLIENT,
    parts: &[],
    refused: None,
    checks: &[
        Check::Entries(66 + 40),
        Check::Execute(&[0, 1, 2, 3], &[(1, 1)]),
        Check::Accepts(&[(0, 1, "done"), (0, 2, "found (1)")]),
        Check::Points(&[
            (62, 0, 1, "out (1)", "done"),
            (83, 0, 2, "rdp (*)", "found (1)"),
        ]),
    ],
};

static LINES: [&str; 4] = ["invoke 0 out (1)", "flush", "invoke 0 rdp (*)", "flush"];

fn are_dropped_in(alloc: Global, ended: &Result<Report, RunFault>) -> bool {
    let Ok(plain) = ended else {
        return false;
    };
    let mut steps = Vec::new(alloc);
    are_forged_put(alloc, plain, &mut steps) && steps_come_out(alloc, &FORGED, steps.as_slice())
}

fn are_dropped_after(alloc: Global, steps: &[Step]) -> bool {
    let Some(config) = config_of(alloc, &FORGED.world) else {
        return false;
    };
    let ended = run(alloc, &config, steps);
    are_dropped_in(alloc, &ended)
}

fn are_dropped(alloc: Global) -> bool {
    let mut steps = Vec::new(alloc);
    are_put(alloc, &LINES, &mut steps) && are_dropped_after(alloc, steps.as_slice())
}

#[test]
fn forged_frames_are_dropped(rt: HostRuntime) {
    assert!(rt; are_dropped(rt.alloc()));
}
