//! Rows of examples/, which two clients call in turn, one row after another.

use crate::pipes::{CLIENTS, Fate, Fates, Pipes};
use std::alloc::Global;

// Lines of examples/first.bts and examples/queue.bts, with the results that stand in their .out files.
static ROWS: [(&str, &str); 9] = [
    ("out (1 2)", "done"),
    ("out (1 3)", "done"),
    ("rdp (1 *)", "found (1 2)"),
    ("rdp (1)", "absent"),
    ("rdp (?int 3)", "found (1 3)"),
    (r#"out ("job" 1 "wash")"#, "done"),
    (r#"cas ("claim" 1 ?text) ("claim" 1 "ann")"#, "swapped true"),
    (
        r#"cas ("claim" 1 ?text) ("claim" 1 "ben")"#,
        "swapped false",
    ),
    (r#"inp ("job" 1 ?text)"#, r#"found ("job" 1 "wash")"#),
];

// The fates of every 31 frames. Nobody waits so long that a primary is suspected: signatures take long.
static FATES: [(usize, Fate); 14] = [
    (1, Fate::Twice),
    (3, Fate::Late),
    (5, Fate::Forged),
    (7, Fate::Late),
    (9, Fate::Lost),
    (11, Fate::Forged),
    (13, Fate::Twice),
    (15, Fate::Late),
    (17, Fate::Late),
    (19, Fate::Forged),
    (21, Fate::Lost),
    (23, Fate::Twice),
    (26, Fate::Forged),
    (29, Fate::Lost),
];

// How many bytes are read at a time, and how many are written.
static CUTS: [(usize, usize); 3] = [(usize::MAX, usize::MAX), (1, 4_096), (7, 1)];

// Whether each process writes the same again for what came to it.
fn are_replayed(alloc: Global, pipes: &Pipes) -> Option<bool> {
    for place in 0..6 {
        let process = pipes.process(place)?;
        for &(read, written) in &CUTS {
            if !process.is_replayed(alloc, read, written) {
                return Some(false);
            }
        }
    }
    Some(true)
}

// How many rows are answered as they should be, and how many frames were carried for them. None if a process wrote
// other bytes when it was run again.
fn answered(alloc: Global, fates: Fates) -> Option<(usize, usize)> {
    let mut pipes = Pipes::new(alloc, fates)?;
    for (number, (line, result)) in ROWS.iter().enumerate() {
        let client = CLIENTS.get(number % 2)?;
        if !pipes.answers(*client, line, result)? {
            return Some((number, pipes.carried()));
        }
    }
    if !are_replayed(alloc, &pipes)? {
        return None;
    }
    Some((ROWS.len(), pipes.carried()))
}

#[test]
fn rows_are_answered(rt: HostRuntime) {
    let answered = answered(rt.alloc(), &[]);
    assert!(rt; matches!(answered, Some((9, _))), "{answered:?}");
}

#[test]
fn rows_are_answered_over_bad_pipes(rt: HostRuntime) {
    let answered = answered(rt.alloc(), &FATES);
    assert!(rt; matches!(answered, Some((9, 155..))), "{answered:?}");
}
