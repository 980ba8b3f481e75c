//! A number's way through the log of replica 1 among four, in view 0 and on to later ones, with marks of four numbers.

use crate::answers::holds;
use ordering::{HashedBatch, Log, Phase, Vote};
use std::alloc::Global;
use std::sync::Arc;
use terms::{Digest, NoMemory, Number, ReplicaId, View};
use test_bytes::Verdict;
use wire::{Batch, Checkpoint, CheckpointEntry, Commit, Prepare};

const ME: ReplicaId = ReplicaId(1);

const VIEW: View = View(0);

const FIRST: Number = Number(1);

// By Python: hashlib.sha256(bytes(1)).
const DIGEST: Digest = [
    0x6e, 0x34, 0x0b, 0x9c, 0xff, 0xb3, 0x7a, 0x98, 0x9c, 0xa5, 0x44, 0xe6, 0xbb, 0x78, 0x0a, 0x2c,
    0x78, 0x90, 0x1d, 0x3f, 0xb3, 0x37, 0x38, 0x76, 0x85, 0x11, 0xa3, 0x06, 0x17, 0xaf, 0xa0, 0x1d,
];

// A state after number 1 may have any root here.
const STATE: CheckpointEntry = CheckpointEntry {
    number: FIRST,
    digest: DIGEST,
};

pub fn new_log(alloc: Global) -> Result<Log, NoMemory> {
    Log::new(alloc, ME, 1, 4)
}

fn batch_of(alloc: Global, text: &[u8]) -> Result<Arc<HashedBatch>, NoMemory> {
    let text = Vec::from_slice(alloc, text)?;
    let batch = HashedBatch::new(Batch { text });
    Ok(Arc::new(alloc, batch)?)
}

// The primary's batch is logged, and the own prepare is due.
fn is_logged(log: &mut Log, batch: Arc<HashedBatch>) -> bool {
    log.on_preprepare(ReplicaId(0), VIEW, FIRST, batch).is_ok()
        && log.logged_digest(FIRST) == Some(DIGEST)
        && log.due_vote(Phase::Prepare, FIRST) == Some(DIGEST)
}

// The own vote is counted, and due no more.
fn votes(log: &mut Log, phase: Phase) -> bool {
    if !log.is_in_marks(FIRST) || ME.0 >= log.replicas() {
        return false;
    }
    let vote = Vote {
        sender: ME,
        digest: DIGEST,
    };
    log.add_vote(phase, FIRST, vote);
    log.due_vote(phase, FIRST).is_none()
}

// The second of two backups prepares, and the own commit is due.
fn is_prepared(log: &mut Log) -> bool {
    let prepare = Prepare {
        view: VIEW,
        number: FIRST,
        digest: DIGEST,
    };
    log.on_prepare(ReplicaId(2), &prepare).is_ok()
        && log.is_prepared(FIRST)
        && log.due_vote(Phase::Commit, FIRST) == Some(DIGEST)
}

fn commits(log: &mut Log, sender: ReplicaId) -> bool {
    let commit = Commit {
        view: VIEW,
        number: FIRST,
        digest: DIGEST,
    };
    log.on_commit(sender, &commit).is_ok()
}

fn is_committed(log: &mut Log) -> bool {
    commits(log, ReplicaId(0)) && !log.is_committed(FIRST) && commits(log, ReplicaId(3))
}

fn has_text(log: &Log, text: &[u8]) -> bool {
    match log.next_batch(FIRST) {
        Some(batch) => batch.text() == text,
        None => false,
    }
}

// The batch is logged and then prepared, with the own prepare.
fn prepares(log: &mut Log, batch: Arc<HashedBatch>) -> bool {
    is_logged(log, batch)
        && votes(log, Phase::Prepare)
        && !log.is_prepared(FIRST)
        && is_prepared(log)
}

fn prepares_and_commits(log: &mut Log, batch: Arc<HashedBatch>) -> bool {
    prepares(log, batch)
        && votes(log, Phase::Commit)
        && !log.is_committed(FIRST)
        && is_committed(log)
}

// After the replica left its view nothing is due.
fn owes_nothing(log: &mut Log) -> bool {
    log.leave();
    !log.is_active()
        && log.due_vote(Phase::Prepare, FIRST).is_none()
        && log.due_vote(Phase::Commit, FIRST).is_none()
}

// In the later view nothing is logged and nobody voted.
fn is_empty_in(log: &mut Log, view: View) -> bool {
    log.enter(view);
    log.is_active_in(view)
        && !log.is_active_in(VIEW)
        && log.logged_batch(FIRST).is_none()
        && log.vote_of(Phase::Prepare, FIRST, ReplicaId(2)).is_none()
        && log.vote_of(Phase::Commit, FIRST, ReplicaId(3)).is_none()
}

fn keeps_committed(log: &mut Log) -> bool {
    is_empty_in(log, View(1))
        && has_text(log, b"\0")
        && is_empty_in(log, View(2))
        && has_text(log, b"\0")
}

fn keeps_nothing(log: &mut Log) -> bool {
    owes_nothing(log) && is_empty_in(log, View(1)) && log.next_batch(FIRST).is_none()
}

fn checkpoint_of(log: &mut Log, sender: ReplicaId) -> bool {
    let checkpoint = Checkpoint {
        number: FIRST,
        root: DIGEST,
    };
    log.on_checkpoint(sender, &checkpoint).is_ok()
}

// Three checkpoints of others are no stable one without the own.
fn becomes_stable(log: &mut Log) -> bool {
    let is_of_others = checkpoint_of(log, ReplicaId(0))
        && checkpoint_of(log, ReplicaId(2))
        && checkpoint_of(log, ReplicaId(3))
        && log.count_checkpoints(&STATE) == 3
        && !log.is_stable(&STATE);
    if ME.0 >= log.replicas() {
        return false;
    }
    log.add_checkpoint(ME, STATE);
    is_of_others && log.is_stable(&STATE)
}

fn is_cut(log: &mut Log) -> bool {
    let was_logged = log.logged_batch(FIRST).is_some();
    log.cut(FIRST);
    was_logged
        && log.low().0 == 1
        && log.logged_batch(FIRST).is_none()
        && log.is_in_marks(Number(5))
        && !log.is_in_marks(Number(6))
}

// What is asked of a log.
#[derive(Clone, Copy)]
enum Way {
    IsCommitted,
    StaysCommitted,
    IsPreparedAlone,
    IsCut,
}

fn goes(log: &mut Log, batch: Arc<HashedBatch>, way: Way) -> bool {
    match way {
        Way::IsCommitted => prepares_and_commits(log, batch) && has_text(log, b"\0"),
        Way::StaysCommitted => prepares_and_commits(log, batch) && keeps_committed(log),
        Way::IsPreparedAlone => prepares(log, batch) && keeps_nothing(log),
        Way::IsCut => is_logged(log, batch) && becomes_stable(log) && is_cut(log),
    }
}

fn goes_with_batch(alloc: Global, log: &mut Log, way: Way) -> Verdict {
    match batch_of(alloc, b"\0") {
        Ok(batch) => Ok(goes(log, batch, way)),
        Err(NoMemory) => Err(NoMemory),
    }
}

fn new_log_goes(alloc: Global, way: Way) -> Verdict {
    match new_log(alloc) {
        Ok(mut log) => {
            let verdict = goes_with_batch(alloc, &mut log, way);
            drop(log);
            verdict
        }
        Err(NoMemory) => Err(NoMemory),
    }
}

#[test]
fn a_batch_is_committed(rt: HostRuntime) {
    holds(&rt, new_log_goes(rt.alloc(), Way::IsCommitted));
}

#[test]
fn what_is_committed_stays_so(rt: HostRuntime) {
    holds(&rt, new_log_goes(rt.alloc(), Way::StaysCommitted));
}

#[test]
fn what_is_prepared_does_not_stay(rt: HostRuntime) {
    holds(&rt, new_log_goes(rt.alloc(), Way::IsPreparedAlone));
}

#[test]
fn a_stable_checkpoint_cuts(rt: HostRuntime) {
    holds(&rt, new_log_goes(rt.alloc(), Way::IsCut));
}

fn log_at_second_try(alloc: Global) -> Result<Log, NoMemory> {
    match new_log(alloc) {
        Err(NoMemory) => new_log(alloc),
        first => first,
    }
}

fn is_made(alloc: Global) -> Verdict {
    match log_at_second_try(alloc) {
        Ok(log) => {
            let is_new = log.is_in_marks(FIRST) && log.logged_batch(FIRST).is_none();
            drop(log);
            Ok(is_new)
        }
        Err(NoMemory) => Err(NoMemory),
    }
}

// If a log can't be made, it can be at the next try: `tools/growths` refuses each growth in turn.
#[test]
fn refused_memory(rt: HostRuntime) {
    holds(&rt, is_made(rt.alloc()));
}
