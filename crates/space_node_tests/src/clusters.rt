//! Clusters in tables: who is faulty, what is done, and what comes of it. One function makes a cluster, finishes it and
//! looks at its run, so a test owns nothing.

ghost use Rattle.std.specs.Prelude.{◌≡◌};

use crate::answers::answers_all;
use crate::calls::TRIES;
use crate::drills::{calls_all, has_correct_shares, receives_stale_alone};
use crate::full::is_refused_after;
use crate::gates::{Flags, TestGate};
use crate::held::{Holding, calls_past};
use crate::stopped::{is_node_alone, others_answer};
use events::Config;
use journal::{Naming, Opened};
use space_node::{ClientHandle, Cluster, Drill, FinishFault, Run, StartFault};
use std::alloc::Global;
use std::marker::Brand;
use std::process::Abort;
use std::rt::Clock;
use std::sync::{Arc, Wait};
use std::thread::Threads;
use terms::NoMemory;
use test_bytes::seed;

/// How many entries a journal takes that is never full here.
pub const AMPLE: u32 = 65_536;

/// What is done with a cluster of two clients, and what comes of it.
#[derive(Clone, Copy)]
pub enum Play<'a> {
    /// Both clients' calls are answered, and the events of each of four replicas are numbered.
    Calls,
    /// Calls are answered beside faulty replicas, which have the last numbers, and whose stale frames alone are got.
    Drills,
    /// Time goes by so often for a client, its call meets the journal's limit, and one more finds it stopped. Then the
    /// trace has so many entries, if that is certain.
    Full(u8, Option<usize>),
    /// Calls are answered while nodes are held.
    Holds(Holding<'a>),
    /// This node stops, and the others answer.
    Stops(u8),
    /// The cluster isn't started.
    Refused,
}

/// How many replicas may be faulty, who is, and the drills of replicas; how many entries the journal takes; and what is
/// done.
#[derive(Clone, Copy)]
pub struct Trial<'a> {
    pub faults: u8,
    pub replicas: &'a [u16],
    pub clients: &'a [u16],
    pub drills: &'a [(u16, Drill)],
    pub limit: u32,
    pub play: Play<'a>,
}

/// The configuration in which up to so many replicas may be faulty, and these replicas and clients are. Those here are
/// all in range.
pub fn config_of(
    alloc: Global,
    faults: u8,
    replicas: &[u16],
    clients: &[u16],
) -> Result<Config, NoMemory> {
    let replicas = Vec::from_slice(alloc, replicas)?;
    let clients = Vec::from_slice(alloc, clients)?;
    match Config::new(faults, 2, seed(), 4, replicas, clients) {
        Ok(config) => Ok(config),
        Err(_) => Err(NoMemory),
    }
}

// Puts the handle of the client of this number after those that were taken before, and says whether there was one.
// No other function owns a handle, because each of its exits would have to drop it.
fn take_client<N: Naming + Send + Sync + 'static>(
    cluster: &mut Cluster<N>,
    clients: &mut Vec<ClientHandle<N>>,
    number: u16,
) -> Result<bool, NoMemory> {
    clients.reserve(1)?;
    match cluster.client(number) {
        Some(client) => {
            clients.push_reserved(client);
            Ok(true)
        }
        None => Ok(false),
    }
}

// Each client's handle is there once.
fn are_taken<N: Naming + Send + Sync + 'static>(
    cluster: &mut Cluster<N>,
    clients: &mut Vec<ClientHandle<N>>,
) -> Result<bool, NoMemory> {
    if !take_client(cluster, clients, 0)? || !take_client(cluster, clients, 1)? {
        return Ok(false);
    }
    match take_client(cluster, clients, 0) {
        Ok(is_taken) => Ok(!is_taken),
        Err(NoMemory) => Err(NoMemory),
    }
}

fn plays_first<N: Naming + Send + Sync + 'static, R: Threads + Wait + Clock + Sync>(
    rt: &R,
    alloc: Global,
    cluster: &Cluster<N>,
    client: &mut ClientHandle<N>,
    flags: &Flags,
    play: &Play<'_>,
) -> Result<bool, NoMemory> {
    match play {
        Play::Drills => calls_all(rt, alloc, cluster, client),
        Play::Full(pulses, _) => is_refused_after(rt, alloc, cluster, client, *pulses),
        Play::Holds(holding) => calls_past(rt, alloc, cluster, client, flags, holding),
        Play::Stops(node) => others_answer(rt, alloc, cluster, client, *node),
        Play::Calls | Play::Refused => Ok(false),
    }
}

fn plays<N: Naming + Send + Sync + 'static, R: Threads + Wait + Clock + Sync>(
    rt: &R,
    alloc: Global,
    cluster: &Cluster<N>,
    clients: &mut [ClientHandle<N>],
    flags: &Flags,
    play: &Play<'_>,
) -> Result<bool, NoMemory> {
    if matches!(play, Play::Calls) {
        return answers_all(rt, alloc, cluster, clients);
    }
    match clients.first_mut() {
        Some(client) => plays_first(rt, alloc, cluster, client, flags, play),
        None => Ok(false),
    }
}

fn takes_and_plays<N: Naming + Send + Sync + 'static, R: Threads + Wait + Clock + Sync>(
    rt: &R,
    alloc: Global,
    cluster: &mut Cluster<N>,
    clients: &mut Vec<ClientHandle<N>>,
    flags: &Flags,
    play: &Play<'_>,
) -> Result<bool, NoMemory> {
    if !are_taken(cluster, clients)? {
        return Ok(false);
    }
    plays(rt, alloc, cluster, clients.as_mut_slice(), flags, play)
}

fn is_right<N: Naming>(run: &Run<N>, flags: &Flags, trial: &Trial<'_>) -> bool {
    match trial.play {
        Play::Calls => run.shares.len() == 4 && flags.are_numbered(),
        Play::Drills => {
            has_correct_shares(run, trial.faults)
                && receives_stale_alone(run.trace.as_slice(), trial.drills)
        }
        Play::Full(_, Some(entries)) => run.trace.len() == entries,
        Play::Full(_, None) | Play::Holds(_) => true,
        Play::Stops(node) => is_node_alone(run.stopped.as_slice(), node),
        Play::Refused => false,
    }
}

// None if memory may have run out: in a call, or if another node stopped too.
fn outcome<N: Naming>(
    played: Result<bool, NoMemory>,
    run: &Run<N>,
    flags: &Flags,
    trial: &Trial<'_>,
) -> Option<bool> {
    let Ok(played) = played else {
        return None;
    };
    if matches!(trial.play, Play::Stops(_)) && run.stopped.len() > 1 {
        return None;
    }
    Some(played && is_right(run, flags, trial))
}

fn end_of<N: Naming>(
    played: Result<bool, NoMemory>,
    finished: &Result<Run<N>, FinishFault<N>>,
    flags: &Flags,
    trial: &Trial<'_>,
) -> Result<Option<bool>, NoMemory> {
    match finished {
        Ok(run) => Ok(outcome(played, run, flags, trial)),
        Err(FinishFault::NotInJournal(_, _)) => Ok(Some(false)),
        Err(FinishFault::NoMemory) => Err(NoMemory),
    }
}

fn runs<N: Naming + Send + Sync + 'static, R: Threads + Wait + Clock + Sync>(
    rt: &R,
    alloc: Global,
    mut cluster: Cluster<N>,
    flags: &Flags,
    trial: &Trial<'_>,
) -> Result<Option<bool>, NoMemory> {
    let mut clients = Vec::new(alloc);
    let played = takes_and_plays(rt, alloc, &mut cluster, &mut clients, flags, &trial.play);
    flags.open();
    let finished = cluster.finish(rt, alloc, clients.as_slice());
    end_of(played, &finished, flags, trial)
}

fn started<
    N: Naming + Send + Sync + 'static,
    R: Threads + Wait + Clock + Copy + Drop + Send + Sync + 'static,
>(
    rt: &R,
    alloc: Global,
    opened: Opened,
    config: &Config,
    flags: &Arc<Flags, Global>,
    trial: &Trial<'_>,
) -> Result<Cluster<N>, StartFault>
    requires config { config.now ≡ N.config }
    requires book { opened ≡ N.book }
{
    let drills = Vec::from_slice(alloc, trial.drills)?;
    let stopping = match trial.play {
        Play::Stops(node) => Some(u16::from(node)),
        _ => None,
    };
    let gate = TestGate {
        rt: *rt,
        flags: Arc::try_clone(flags)?,
        stopping,
    };
    Cluster::<N>::start_with_drills(rt, alloc, opened, config, trial.limit, gate, drills)
}

fn starts<
    N: Naming + Send + Sync + 'static,
    R: Threads + Wait + Clock + Copy + Drop + Send + Sync + 'static,
>(
    rt: &R,
    alloc: Global,
    opened: Opened,
    config: &Config,
    trial: &Trial<'_>,
) -> Result<Option<bool>, NoMemory>
    requires config { config.now ≡ N.config }
    requires book { opened ≡ N.book }
{
    let flags = Flags::new(alloc)?;
    match started::<N, R>(rt, alloc, opened, config, &flags, trial) {
        Ok(cluster) => runs(rt, alloc, cluster, &flags, trial),
        Err(StartFault::BadConfig) => Ok(Some(matches!(trial.play, Play::Refused))),
        Err(StartFault::NoThread | StartFault::NoMemory) => Err(NoMemory),
    }
}

// Whether all comes out so, at the second try if memory may have run out at the first one.
fn comes_out<R: Threads + Wait + Clock + Copy + Drop + Send + Sync + 'static>(
    rt: &R,
    alloc: Global,
    trial: &Trial<'_>,
) -> Result<bool, NoMemory> {
    let config = config_of(alloc, trial.faults, trial.replicas, trial.clients)?;
    for _ in 0..TRIES {
        if let Some(right) = starts::<Brand, R>(rt, alloc, Opened::new(), &config, trial)? {
            return Ok(right);
        }
    }
    Ok(false)
}

/// Each trial comes out so. The assertion stands here and not in each test, since each costs a proof.
pub fn come_out<R: Abort + Threads + Wait + Clock + Copy + Drop + Send + Sync + 'static>(
    rt: &R,
    alloc: Global,
    trials: &[Trial<'_>],
) {
    for trial in trials {
        assert_eq!(rt; comes_out(rt, alloc, trial), Ok(true));
    }
}
