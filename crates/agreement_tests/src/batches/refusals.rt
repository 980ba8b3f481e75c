//! Refusals, each in a case in which it is the first that applies.

use crate::answers::holds;
use crate::batches::phases::new_log;
use ordering::{Dropped, Log};
use std::alloc::Global;
use terms::{Digest, NoMemory, Number, ReplicaId, View};
use test_bytes::Verdict;
use wire::{Checkpoint, Commit, Prepare};

const ONE: Digest = [1; 32];

const OTHER: Digest = [2; 32];

// Sender, view, number and digest of a vote, and why replica 1 of four drops it in view 0. The marks span four
// numbers, and replica 2 has voted for the first digest at number 1.
type Row = (u8, u64, u64, Digest, Option<Dropped>);

static PREPARES: [Row; 7] = [
    (0, 0, 1, ONE, Some(Dropped::UnknownSender)),
    (4, 1, 5, ONE, Some(Dropped::UnknownSender)),
    (0, 1, 5, ONE, Some(Dropped::WrongView)),
    (3, 0, 5, ONE, Some(Dropped::OutOfMarks)),
    (2, 0, 1, OTHER, Some(Dropped::Conflict)),
    (2, 0, 1, ONE, Some(Dropped::Duplicate)),
    (3, 0, 4, ONE, None),
];

static COMMITS: [Row; 6] = [
    (4, 1, 5, ONE, Some(Dropped::UnknownSender)),
    (0, 1, 5, ONE, Some(Dropped::WrongView)),
    (0, 0, 0, ONE, Some(Dropped::OutOfMarks)),
    (2, 0, 1, OTHER, Some(Dropped::Conflict)),
    (2, 0, 1, ONE, Some(Dropped::Duplicate)),
    (0, 0, 1, ONE, None),
];

static NUMBERS: [(Dropped, u8); 5] = [
    (Dropped::WrongView, 10),
    (Dropped::OutOfMarks, 11),
    (Dropped::Conflict, 12),
    (Dropped::UnknownSender, 13),
    (Dropped::Duplicate, 14),
];

fn prepare(log: &mut Log, (sender, view, number, digest, _): Row) -> Option<Dropped> {
    let prepare = Prepare {
        view: View(view),
        number: Number(number),
        digest,
    };
    log.on_prepare(ReplicaId(sender), &prepare).err()
}

fn commit(log: &mut Log, (sender, view, number, digest, _): Row) -> Option<Dropped> {
    let commit = Commit {
        view: View(view),
        number: Number(number),
        digest,
    };
    log.on_commit(ReplicaId(sender), &commit).err()
}

static FIRST: Row = (2, 0, 1, ONE, None);

fn refuses_votes(log: &mut Log) -> bool {
    let is_taken = prepare(log, FIRST).is_none() && commit(log, FIRST).is_none();
    is_taken && refuses_prepares(log) && refuses_commits(log)
}

fn refuses_prepares(log: &mut Log) -> bool {
    for &row in &PREPARES {
        if prepare(log, row) != row.4 {
            return false;
        }
    }
    true
}

fn refuses_commits(log: &mut Log) -> bool {
    for &row in &COMMITS {
        if commit(log, row) != row.4 {
            return false;
        }
    }
    true
}

fn checkpoint(log: &mut Log, sender: u8, number: u64, root: Digest) -> Option<Dropped> {
    let checkpoint = Checkpoint {
        number: Number(number),
        root,
    };
    log.on_checkpoint(ReplicaId(sender), &checkpoint).err()
}

fn refuses_checkpoints(log: &mut Log) -> bool {
    checkpoint(log, 2, 100, ONE).is_none()
        && checkpoint(log, 4, 0, ONE) == Some(Dropped::UnknownSender)
        && checkpoint(log, 2, 0, ONE) == Some(Dropped::OutOfMarks)
        && checkpoint(log, 2, 100, OTHER) == Some(Dropped::Conflict)
        && checkpoint(log, 2, 100, ONE) == Some(Dropped::Duplicate)
}

fn takes_no_votes(log: &mut Log) -> bool {
    log.leave();
    prepare(log, FIRST) == Some(Dropped::WrongView)
}

// What is asked of a log.
#[derive(Clone, Copy)]
enum Refused {
    Votes,
    Checkpoints,
    VotesWhileInactive,
}

fn refuses(log: &mut Log, refused: Refused) -> bool {
    match refused {
        Refused::Votes => refuses_votes(log),
        Refused::Checkpoints => refuses_checkpoints(log),
        Refused::VotesWhileInactive => takes_no_votes(log),
    }
}

fn new_log_refuses(alloc: Global, refused: Refused) -> Verdict {
    match new_log(alloc) {
        Ok(mut log) => {
            let is_right = refuses(&mut log, refused);
            drop(log);
            Ok(is_right)
        }
        Err(NoMemory) => Err(NoMemory),
    }
}

#[test]
fn votes_are_refused(rt: HostRuntime) {
    holds(&rt, new_log_refuses(rt.alloc(), Refused::Votes));
}

#[test]
fn checkpoints_are_refused(rt: HostRuntime) {
    holds(&rt, new_log_refuses(rt.alloc(), Refused::Checkpoints));
}

#[test]
fn an_inactive_replica_takes_no_votes(rt: HostRuntime) {
    holds(
        &rt,
        new_log_refuses(rt.alloc(), Refused::VotesWhileInactive),
    );
}

fn have_numbers() -> bool {
    for &(dropped, number) in &NUMBERS {
        if dropped.number() != number {
            return false;
        }
    }
    true
}

#[test]
fn refusals_have_numbers(rt: HostRuntime) {
    holds(&rt, Ok(have_numbers()));
}

fn has_text(alloc: Global) -> Verdict {
    match format!(in alloc; "{}", Dropped::OutOfMarks) {
        Ok(text) => {
            let is_right = text.as_str() == "the number is outside the marks";
            drop(text);
            Ok(is_right)
        }
        Err(_) => Err(NoMemory),
    }
}

#[test]
fn refusals_have_texts(rt: HostRuntime) {
    holds(&rt, has_text(rt.alloc()));
}
