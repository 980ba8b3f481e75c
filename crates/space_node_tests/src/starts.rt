//! Clusters that are started and finished without a call, and that are not started.

ghost use Rattle.std.specs.Prelude.{◌≡◌};

use crate::clusters::{AMPLE, config_of};
use events::Config;
use journal::{Naming, Opened};
use space_node::{ClientHandle, Cluster, FinishFault, Open, Run, StartFault};
use std::alloc::Global;
use std::marker::Brand;
use std::sync::Wait;
use std::thread::Threads;
use terms::NoMemory;

// Whether a trace of no entries comes, and the shares of four replicas.
fn starts_and_ends<N: Naming + Send + Sync + 'static, R: Threads + Wait + Copy + Send + 'static>(
    rt: &R,
    alloc: Global,
    opened: Opened,
    config: &Config,
) -> Result<bool, StartFault>
    requires config { config.now ≡ N.config }
    requires book { opened ≡ N.book }
{
    match Cluster::<N>::start(rt, alloc, opened, config, AMPLE, Open) {
        Ok(cluster) => {
            let none: Vec<ClientHandle<N>> = Vec::new(alloc);
            is_empty(&cluster.finish(rt, alloc, none.as_slice()))
        }
        Err(fault) => Err(fault),
    }
}

fn is_empty<N: Naming>(finished: &Result<Run<N>, FinishFault<N>>) -> Result<bool, StartFault> {
    match finished {
        Ok(run) => Ok(run.trace.is_empty() && run.shares.len() == 4),
        Err(FinishFault::NotInJournal(_, _)) => Ok(false),
        Err(FinishFault::NoMemory) => Err(StartFault::NoMemory),
    }
}

// The same if these replicas are faulty.
fn run_without_calls<R: Threads + Wait + Copy + Send + 'static>(
    rt: &R,
    alloc: Global,
    faulty: &[u16],
) -> Result<bool, StartFault> {
    match config_of(alloc, 1, faulty, &[]) {
        Ok(config) => starts_and_ends::<Brand, R>(rt, alloc, Opened::new(), &config),
        Err(NoMemory) => Err(StartFault::NoMemory),
    }
}

// Whether it was empty, or memory ran out.
fn is_empty_or_refused(came: Result<bool, StartFault>) -> bool {
    matches!(
        came,
        Ok(true) | Err(StartFault::NoMemory | StartFault::NoThread)
    )
}

#[test]
fn nothing_is_called(rt: HostRuntime) {
    assert!(rt; is_empty_or_refused(run_without_calls(&rt, rt.alloc(), &[])));
}

#[test]
fn a_faulty_party_is_refused(rt: HostRuntime) {
    let came = run_without_calls(&rt, rt.alloc(), &[3]);
    assert_eq!(rt; came, Err(StartFault::BadConfig));
}
