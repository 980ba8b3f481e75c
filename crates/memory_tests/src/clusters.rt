//! A running cluster of four replicas and two clients that is started and finished without a call. The nodes' own
//! growths are not refused: `malloc` has addresses in store for each thread that ever ran.

ghost use Rattle.std.specs.Prelude.{◌≡◌};

use crate::left::{Outcome, Taken, Tally, assert_right, outcome_of};
use events::{BadConfig, Config};
use journal::{Naming, Opened};
use space_node::{ClientHandle, Cluster, FinishFault, Open, Run, StartFault};
use std::alloc::Global;
use std::marker::Brand;
use std::rt::Files;
use std::sync::Wait;
use std::thread::Threads;
use test_bytes::seed;

const LIMIT: u32 = 1024;

const CRUMBS: usize = 64;

// The C library keeps the stacks of four of the eight threads, and takes 8 MB for each other one.
const CRUMB: usize = 1 << 20;

// As `under_each_size`, which takes no call that starts threads.
fn tally_of<R: Files + Threads + Wait + Copy + Send + 'static>(
    rt: &R,
    alloc: Global,
    config: &Config,
) -> Option<Tally> {
    let mut tally = Tally::default();
    if start_and_finish::<Brand, R>(rt, alloc, Opened::new(), config) != Outcome::Done {
        return Tally::unprepared();
    }
    let mut taken = Taken::new(rt, alloc, CRUMBS, CRUMB)?;
    for _ in 0..CRUMBS {
        tally.add(start_and_finish::<Brand, R>(rt, alloc, Opened::new(), config));
        taken.put_back();
    }
    Some(tally)
}

fn start_and_finish<N: Naming + Send + Sync + 'static, R: Threads + Wait + Copy + Send + 'static>(
    rt: &R,
    alloc: Global,
    opened: Opened,
    config: &Config,
) -> Outcome
    requires config { config.now ≡ N.config }
    requires book { opened ≡ N.book }
{
    match Cluster::<N>::start(rt, alloc, opened, config, LIMIT, Open) {
        Ok(cluster) => {
            let none: Vec<ClientHandle<N>> = Vec::new(alloc);
            end_of(&cluster.finish(rt, alloc, none.as_slice()))
        }
        Err(StartFault::NoMemory | StartFault::NoThread) => Outcome::Refused,
        Err(StartFault::BadConfig) => Outcome::Wrong,
    }
}

fn end_of<N: Naming>(finished: &Result<Run<N>, FinishFault<N>>) -> Outcome {
    match finished {
        Ok(run) => outcome_of(run.trace.is_empty() && run.shares.len() == 4, false),
        Err(FinishFault::NotInJournal(_run, _party)) => Outcome::Wrong,
        Err(FinishFault::NoMemory) => Outcome::Refused,
    }
}

/// The configuration of four replicas and two clients.
pub fn config_of(alloc: Global) -> Result<Config, BadConfig> {
    Config::new(1, 2, seed(), 4, Vec::new(alloc), Vec::new(alloc))
}

fn starts<R: Files + Threads + Wait + Copy + Send + 'static>(
    rt: &R,
    alloc: Global,
) -> Option<Tally> {
    match config_of(alloc) {
        Ok(config) => tally_of(rt, alloc, &config),
        Err(_) => Tally::unprepared(),
    }
}

#[test]
fn starts_under_each_size(rt: HostRuntime) {
    assert_right(&rt, starts(&rt, rt.alloc()));
}
