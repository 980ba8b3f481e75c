//! The progress of the clients.

use crate::fault::LateFault;
use std::sync::{Condvar, Mutex, Wait};
use std::time::{Clock, Duration};

// Most milliseconds that a thread sleeps at a time while it waits for the clients.
const PAUSE: u64 = 250;

/// How often it looks in a second.
pub(crate) const LOOKS_A_SECOND: u64 = 4;

/// Is told of the progress of a run.
pub trait Watch {
    /// About so many seconds went by, and so many operations are answered.
    fn note(&mut self, seconds: u64, answered: u64);

    /// No client calls any more.
    fn end(&mut self);
}

/// Ignores the progress.
#[derive(Clone, Copy, Drop)]
pub struct Unwatched;

impl Watch for Unwatched {
    fn note(&mut self, _seconds: u64, _answered: u64) {}

    fn end(&mut self) {}
}

/// The progress of the clients' threads.
#[derive(Clone, Copy, Drop)]
pub(crate) enum Stage {
    /// Some threads still call, and so many operations are answered.
    Calls { answered: u64 },
    /// All threads have ended, and each call was answered.
    Done,
    /// A thread failed with this fault, so the run has no answers.
    Failed(LateFault),
}

// How many operations are answered, how many of the clients' threads have ended, and why the run has no answers.
#[derive(Clone, Copy, Drop)]
struct Counts {
    answered: u64,
    ended: u64,
    fault: Option<LateFault>,
}

/// The counts that the threads of a run share.
#[derive(Drop)]
pub(crate) struct Progress {
    counts: Mutex<Counts>,
    has_changed: Condvar,
}

impl Progress {
    pub(crate) fn new() -> Progress {
        let counts = Counts {
            answered: 0,
            ended: 0,
            fault: None,
        };
        Progress {
            counts: Mutex::new(counts),
            has_changed: Condvar::new(),
        }
    }

    /// Notes that an operation is answered.
    pub(crate) fn add_answer<R: Wait>(&self, rt: &R) {
        let mut counts = self.counts.lock(rt);
        counts.answered = counts.answered.saturating_add(1);
    }

    /// Notes that a thread ends.
    pub(crate) fn add_end<R: Wait>(&self, rt: &R) {
        let mut counts = self.counts.lock(rt);
        counts.ended = counts.ended.saturating_add(1);
        drop(counts);
        self.has_changed.notify_one();
    }

    /// Notes that the run has no answers. Of several faults the first counts, as it led to the others.
    pub(crate) fn fail<R: Wait>(&self, rt: &R, fault: LateFault) {
        let mut counts = self.counts.lock(rt);
        if counts.fault.is_none() {
            counts.fault = Some(fault);
        }
        drop(counts);
        self.has_changed.notify_one();
    }

    /// Waits until so many threads have ended or the run has failed, at most a quarter of a second.
    pub(crate) fn wait<R: Wait + Clock>(&self, rt: &R, threads: u64) -> Stage {
        let counts = self.counts.lock(rt);
        let (counts, _) = self.has_changed.wait_timeout_while(
            rt,
            counts,
            Duration::from_millis(PAUSE),
            |counts| counts.ended < threads && counts.fault.is_none(),
        );
        match counts.fault {
            Some(fault) => Stage::Failed(fault),
            None if counts.ended < threads => Stage::Calls {
                answered: counts.answered,
            },
            None => Stage::Done,
        }
    }
}
