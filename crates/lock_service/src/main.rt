//! A lock service: a program that embeds a replicated tuple space, to be copied and changed.
//!
//! It starts four replicas as threads of this process, one of which may fail, and two clients, Ann and Ben, who ask
//! for one printer's lock in turn. `lock.rt` has the lock. Nothing there knows how the space is replicated.
//!
//! # What is proved
//!
//! If the service says that a client holds a lock, or has let it go, the client accepted that answer to one of its
//! calls (`space_node::ClientHandle::call`). The output is tested.
#![tactic(auto)]

ghost use Rattle.std.specs.Prelude.{◌≡◌};

mod fault;
mod lock;

use events::Config;
use fault::Fault;
use journal::{Naming, Opened};
use lock::Lock;
use space_node::{ClientHandle, Cluster, Open};
use std::alloc::Global;
use std::marker::Brand;
use std::process::ExitCode;
use std::sync::Wait;
use std::thread::Threads;

// Ann, and Ben.
const CLIENTS: u16 = 2;

// Most entries of the cluster's journal. A call of this cluster has about 50.
const JOURNAL: u32 = 65_536;

// All keys come from the seed, so a service draws its own.
const SEED: [u8; 32] = [7; 32];

fn main(rt: HostRuntime) -> ExitCode {
    match start(&rt, rt.alloc()) {
        Ok(()) => ExitCode::SUCCESS,
        Err(fault) => {
            let _ = eprintln!(rt; "lock_service: {fault}");
            ExitCode::FAILURE
        }
    }
}

fn start<R: Print + Threads + Wait + Copy + Send + 'static>(
    rt: &R,
    alloc: Global,
) -> Result<(), Fault> {
    // Four replicas, of which one may fail; two clients; a checkpoint at each sixteenth number; nobody is known to
    // lie.
    let config = Config::new(1, CLIENTS, SEED, 16, Vec::new(alloc), Vec::new(alloc))?;
    serve::<Brand, R>(rt, alloc, Opened::new(), &config)
}

// A cluster has to be finished whatever its calls did, so nothing returns between its start and its end.
fn serve<N: Naming + Send + Sync + 'static, R: Print + Threads + Wait + Copy + Send + 'static>(
    rt: &R,
    alloc: Global,
    opened: Opened,
    config: &Config,
) -> Result<(), Fault>
    requires config { config.now ≡ N.config }
    requires book { opened ≡ N.book }
{
    let mut cluster = Cluster::<N>::start(rt, alloc, opened, config, JOURNAL, Open)?;
    let mut clients = Vec::new(alloc);
    let played = play(rt, alloc, &mut cluster, &mut clients);
    let finished = finish(rt, alloc, cluster, clients.as_slice());
    played.and(finished)
}

// Joins the threads of the cluster, and compares their histories and the clients' with the journal.
fn finish<N: Naming + Send + Sync + 'static, R: Threads + Wait>(
    rt: &R,
    alloc: Global,
    cluster: Cluster<N>,
    clients: &[ClientHandle<N>],
) -> Result<(), Fault> {
    match cluster.finish(rt, alloc, clients) {
        Ok(_run) => Ok(()),
        Err(_fault) => Err(Fault::NotFinished),
    }
}

// In a service each client would have a thread of its own, and ask again after a while.
fn play<N: Naming + Send + Sync + 'static, R: Print + Wait>(
    rt: &R,
    alloc: Global,
    cluster: &mut Cluster<N>,
    clients: &mut Vec<ClientHandle<N>>,
) -> Result<(), Fault> {
    take_clients(cluster, clients)?;
    let [ann, ben] = clients.as_mut_slice() else {
        return Err(Fault::NoClient);
    };
    let printer = Lock::new("printer");
    ask(rt, alloc, ann, printer, "Ann")?;
    ask(rt, alloc, ben, printer, "Ben")?;
    let_go(rt, alloc, ann, printer, "Ann")?;
    ask(rt, alloc, ben, printer, "Ben")?;
    let_go(rt, alloc, ben, printer, "Ben")
}

// Takes the handles of all clients, in the order of their numbers.
fn take_clients<N: Naming + Send + Sync + 'static>(
    cluster: &mut Cluster<N>,
    clients: &mut Vec<ClientHandle<N>>,
) -> Result<(), Fault> {
    for number in 0..CLIENTS {
        take_client(cluster, clients, number)?;
    }
    Ok(())
}

// There is room before the handle is taken, so it is never dropped: a drop of it would reach all that a replica has,
// and each type there costs a proof.
fn take_client<N: Naming + Send + Sync + 'static>(
    cluster: &mut Cluster<N>,
    clients: &mut Vec<ClientHandle<N>>,
    number: u16,
) -> Result<(), Fault> {
    clients.reserve(1)?;
    match cluster.client(number) {
        Some(client) => {
            clients.push_reserved(client);
            Ok(())
        }
        None => Err(Fault::NoClient),
    }
}

fn ask<N: Naming, R: Print + Wait>(
    rt: &R,
    alloc: Global,
    client: &mut ClientHandle<N>,
    lock: Lock<'_>,
    name: &str,
) -> Result<(), Fault> {
    let said = if lock.acquire(rt, alloc, client, name)? {
        "holds the lock"
    } else {
        "has to wait"
    };
    Ok(println!(rt; "{name} {said}")?)
}

fn let_go<N: Naming, R: Print + Wait>(
    rt: &R,
    alloc: Global,
    client: &mut ClientHandle<N>,
    lock: Lock<'_>,
    name: &str,
) -> Result<(), Fault> {
    let said = if lock.release(rt, alloc, client, name)? {
        "lets go"
    } else {
        "did not hold it"
    };
    Ok(println!(rt; "{name} {said}")?)
}
