//! A cluster whose primary takes no event.

use crate::clusters::{CLUSTER_SETTINGS, Ending, ends_so};
use cluster_run::{Gate, Watch};
use std::alloc::{AllocError, Global};
use std::rt::Clock;
use std::sync::atomic::{AtomicU64, Ordering};
use std::sync::{Arc, Wait};
use std::thread;
use std::thread::Threads;
use std::time::Duration;

// How often a held node looks whether the run is over, with a pause of a millisecond each time.
const TURNS: u32 = 50_000;

// The gate and the watch share these.
#[derive(Drop)]
struct Flags {
    is_over: AtomicU64,
    // A node went on before the run was over.
    gave_up: AtomicU64,
}

// Holds the first primary in its first event until the run is over.
#[derive(Drop)]
struct HoldsPrimary<R: Clock> {
    rt: R,
    flags: Arc<Flags, Global>,
}

impl<R: Clock> Gate for HoldsPrimary<R> {
    fn at(&self, node: u16, _event_no: u64) {
        if node != 0 {
            return;
        }
        for _ in 0..TURNS {
            if self.flags.is_over.load(Ordering::SeqCst) == 1 {
                return;
            }
            thread::sleep(&self.rt, Duration::from_millis(1));
        }
        self.flags.gave_up.store(1, Ordering::SeqCst);
    }
}

#[derive(Drop)]
struct SaysOver<'a> {
    flags: &'a Flags,
}

impl Watch for SaysOver<'_> {
    fn note(&mut self, _seconds: u64, _answered: u64) {}

    fn end(&mut self) {
        self.flags.is_over.store(1, Ordering::SeqCst);
    }
}

fn new_flags(alloc: Global) -> Result<Arc<Flags, Global>, AllocError> {
    let flags = Flags {
        is_over: AtomicU64::new(0),
        gave_up: AtomicU64::new(0),
    };
    Ok(Arc::new(alloc, flags)?)
}

fn goes_on_beside<R: Threads + Wait + Clock + Copy + Drop + Send + Sync + 'static>(
    rt: &R,
    alloc: Global,
    flags: &Arc<Flags, Global>,
) -> bool {
    let Ok(held) = Arc::try_clone(flags) else {
        return false;
    };
    let gate = HoldsPrimary {
        rt: *rt,
        flags: held,
    };
    let mut watch = SaysOver { flags };
    let row = (
        CLUSTER_SETTINGS,
        "out (1)\nrdp (*)\ninp (1)\n",
        Ending::Complete,
        "done\nfound (1)\nfound (1)\n",
    );
    ends_so(rt, alloc, gate, &mut watch, row)
}

fn goes_on<R: Threads + Wait + Clock + Copy + Drop + Send + Sync + 'static>(
    rt: &R,
    alloc: Global,
) -> bool {
    let Ok(flags) = new_flags(alloc) else {
        return false;
    };
    goes_on_beside(rt, alloc, &flags) && flags.gave_up.load(Ordering::SeqCst) == 0
}

// The other replicas change their view, and the calls are answered.
#[test]
fn goes_on_without_its_primary(rt: HostRuntime) {
    assert!(rt; goes_on(&rt, rt.alloc()));
}
