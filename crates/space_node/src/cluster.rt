//! A running cluster.

ghost use Rattle.std.specs.Prelude.{◌≡◌, ◌↔◌, ◌+◌, All, Contains, Err, IfOk, IfErr, MatchOption, map, reverse};
ghost use Rattle.terms.specs.Parties.{party_number, client_party};
ghost use Rattle.space_node.specs.declared.fault.StartFault.TheVariants as StartFault;
ghost use Rattle.space_node.specs.Drills.{MayStart, replicas_of};
ghost use Rattle.space_node.specs.Places.{HandleAt, HandsOut, clients_of, parties_of};
ghost use Rattle.space_node.specs.Runs.{IsFaultless, IsFinished, Serves, TellsFault};
ghost use Rattle.space_node.specs.PartyStates.{IsNew};

use crate::drill::{Drill, drill_of, may_start};
use crate::drilling::start_drill;
use crate::fault::{StartFault, ThreadFault};
use crate::faultless::correct_replicas;
use crate::finishing::{finish_run, shares_of};
use crate::gate::Gate;
use crate::handle::ClientHandle;
use crate::parties::{ClientEnd, NodeEnd, new_shared};
use crate::run::{FinishFault, Run};
use crate::serving::{serve_orders, serve_reads};
use crate::shared::Shared;
use events::Config;
use journal::{Naming, Opened};
use std::alloc::Global;
use std::marker::Model;
use std::sync::{Arc, Wait};
use std::thread;
use std::thread::{JoinHandle, Threads};
use terms::{NoMemory, Party, ReplicaId};

/// A running cluster, which has to be finished.
pub struct Cluster<N: Naming> {
    // The correct replicas, in the order of their numbers.
    replicas: Vec<ReplicaId>,
    shared: Arc<Shared<N>, Global>,
    threads: Vec<JoinHandle<()>>,
    handles: Vec<ClientHandle<N>>,
    ghost serves: { Serves N.config replicas.items },
    ghost are_new: { All IsNew handles.items },
}

/// Contracts see the parties whose handles were not handed out.
impl<N: Naming> Model for Cluster<N> {
    ghost use Rattle.std.specs.Prelude.{ℕ, List};
    ghost use Rattle.space_node.specs.Places.{parties_of};

    ghost Value = { List ℕ };

    ghost view = { λ c. parties_of c.handles.items };
}

impl<N: Naming + Send + Sync + 'static> Cluster<N> {
    /// Starts the threads of each replica, and makes a handle for each client. The journal takes at most `limit`
    /// entries, 1 to 65,536 in the program.
    ///
    /// # Errors
    ///
    /// BadConfig exactly if the configuration names a faulty party, NoThread if a thread could not be started, and
    /// NoMemory. No thread is left then.
    pub fn start<G: Gate + Send + Sync + Drop + 'static, R: Threads + Wait + Copy + Send + 'static>(
        rt: &R,
        alloc: Global,
        opened: Opened,
        config: &Config,
        limit: u32,
        gate: G,
    ) -> Result<Cluster<N>, StartFault>
        requires config { config.now ≡ N.config }
        requires book { opened ≡ N.book }
        ensures faulty { (result ≡ Err StartFault.BadConfig) ↔ (¬ IsFaultless config.now) }
        ensures clients { IfOk result (λ cluster. cluster ≡ clients_of config.now) }
    {
        let none = Vec::new(alloc);
        Self::start_with_drills(rt, alloc, opened, config, limit, gate, none)
    }

    /// The same if replicas may be faulty: each faulty one does the drill with its number, in place of its part.
    ///
    /// # Errors
    ///
    /// BadConfig exactly if the drills are not those of the configuration's faulty replicas, each once and in any
    /// order, or if a client is faulty. NoThread if a thread could not be started, and NoMemory. No thread is left
    /// then.
    pub fn start_with_drills<
        G: Gate + Send + Sync + Drop + 'static,
        R: Threads + Wait + Copy + Send + 'static,
    >(
        rt: &R,
        alloc: Global,
        opened: Opened,
        config: &Config,
        limit: u32,
        gate: G,
        drills: Vec<(u16, Drill)>,
    ) -> Result<Cluster<N>, StartFault>
        requires config { config.now ≡ N.config }
        requires book { opened ≡ N.book }
        ensures drills { (result ≡ Err StartFault.BadConfig)
            ↔ (¬ MayStart config.now (replicas_of drills.items)) }
        ensures clients { IfOk result (λ cluster. cluster ≡ clients_of config.now) }
    {
        if !may_start(config, drills.as_slice()) {
            return Err(StartFault::BadConfig);
        }
        let replicas = correct_replicas(alloc, config)?;
        let (shared, ends, client_ends) = new_shared::<N>(alloc, opened, config, limit)?;
        let shared = Arc::new(alloc, shared)?;
        let gate = Arc::new(alloc, gate)?;
        let handles = new_handles(alloc, &shared, client_ends)?;
        let mut threads = Vec::new(alloc);
        let drills = drills.as_slice();
        let started = start_replicas(
            *rt,
            alloc,
            config,
            &shared,
            &gate,
            drills,
            ends,
            &mut threads,
        );
        match started {
            Ok(()) => Ok(Cluster {
                replicas,
                shared,
                threads,
                handles,
            }),
            Err(ThreadFault::NoThread) => {
                stop(rt, &shared, threads);
                Err(StartFault::NoThread)
            }
            Err(ThreadFault::NoMemory) => {
                stop(rt, &shared, threads);
                Err(StartFault::NoMemory)
            }
        }
    }

    /// The handle of the client of this number, at the first request for it. The client has made no call.
    pub fn client(&mut self, number: u16) -> Option<ClientHandle<N>>
        ensures { HandsOut self.old (client_party number) result self.new }
    {
        let at = place_of(self.handles.as_slice(), number)?;
        Some(self.handles.remove(at))
    }

    /// Tells the party that time went by: a replica's timeout, or a client's time to send its request again. Does
    /// nothing if there is no such party.
    pub fn pulse<R: Wait>(&self, rt: &R, party: Party) {
        self.shared.pulse(rt, party);
    }

    /// How many replicas have stopped by now, because memory ran out or the journal refused an event.
    pub fn count_stopped<R: Wait>(&self, rt: &R) -> u8 {
        self.shared.count_stopped(rt)
    }

    /// Ends the nodes before the cluster is finished. Calls that wait, and later ones, are refused.
    pub fn end<R: Wait>(&self, rt: &R) {
        self.shared.end(rt);
    }

    /// Ends the nodes and joins them, takes out the journal, and compares it with the replicas' shares and with the
    /// given clients. A call that waits on another handle is refused, and so is each later call. In the trace each of
    /// these parties does all that it owes. The run names exactly those that had stopped: the replicas by their shares,
    /// by number, and then the clients by their handles, in order. The trace has no later event of a stopped party.
    ///
    /// # Errors
    ///
    /// NotInJournal, with the run and with a party whose history in the journal differs from its share or its handle.
    /// NoMemory, and then the run is lost.
    pub fn finish<R: Threads + Wait>(
        self,
        rt: &R,
        alloc: Global,
        clients: &[ClientHandle<N>],
    ) -> Result<Run<N>, FinishFault<N>>
        ensures finished { IfOk result
            (λ run. IsFinished N.config (reverse run.trace.items) run.shares.items
            (map party_number run.stopped.items) clients.now) }
        ensures fault { IfErr result (λ fault. TellsFault fault clients.now) }
    {
        let Cluster {
            replicas,
            shared,
            threads,
            handles,
        } = self;
        stop(rt, &shared, threads);
        drop(handles);
        let Ok(shares) = shares_of(rt, alloc, &shared, replicas.as_slice()) else {
            return Err(FinishFault::NoMemory);
        };
        let mut journal = shared.journal.lock(rt);
        finish_run(alloc, &mut journal, shares, clients)
    }
}

// A handle for each client.
fn new_handles<N: Naming>(
    alloc: Global,
    shared: &Arc<Shared<N>, Global>,
    ends: Vec<ClientEnd<N>>,
) -> Result<Vec<ClientHandle<N>>, NoMemory>
    ensures new { IfOk result (λ handles. All IsNew handles.items) }
    ensures parties { IfOk result (λ handles. parties_of handles.items ≡ map (λ e. e.state.party) ends.items) }
{
    let mut handles = Vec::new(alloc);
    for end in ends {
        let ClientEnd { state, messages } = end;
        let shared = Arc::try_clone(shared)?;
        handles.push(ClientHandle::new(state, shared, messages))?;
    }
    Ok(handles)
}

// The place of the client's handle.
fn place_of<N: Naming>(handles: &[ClientHandle<N>], number: u16) -> Option<usize>
    ensures { MatchOption result (¬ Contains (parties_of handles.now) (client_party number))
        (HandleAt handles.now (client_party number)) }
{
    for (at, handle) in handles.iter().enumerate() {
        if handle.is_of(number) {
            return Some(at);
        }
    }
    None
}

// Starts both threads of each replica.
fn start_replicas<
    N: Naming + Send + Sync + 'static,
    G: Gate + Send + Sync + Drop + 'static,
    R: Threads + Wait + Copy + Send + 'static,
>(
    rt: R,
    alloc: Global,
    config: &Config,
    shared: &Arc<Shared<N>, Global>,
    gate: &Arc<G, Global>,
    drills: &[(u16, Drill)],
    ends: Vec<NodeEnd>,
    threads: &mut Vec<JoinHandle<()>>,
) -> Result<(), ThreadFault> {
    for end in ends {
        match drill_of(drills, end.replica) {
            None => start_node(rt, alloc, shared, gate, end, threads)?,
            Some(drill) => start_drill(rt, alloc, config, shared, drill, end, threads)?,
        }
    }
    Ok(())
}

fn start_node<
    N: Naming + Send + Sync + 'static,
    G: Gate + Send + Sync + Drop + 'static,
    R: Threads + Wait + Copy + Send + 'static,
>(
    rt: R,
    alloc: Global,
    shared: &Arc<Shared<N>, Global>,
    gate: &Arc<G, Global>,
    end: NodeEnd,
    threads: &mut Vec<JoinHandle<()>>,
) -> Result<(), ThreadFault> {
    let NodeEnd {
        replica,
        orders,
        reads,
    } = end;
    let orders_shared = Arc::try_clone(shared)?;
    let reads_shared = Arc::try_clone(shared)?;
    let gate = Arc::try_clone(gate)?;
    threads.reserve(2)?;
    let ordering = thread::spawn(
        &rt,
        move || serve_orders(&rt, alloc, &orders_shared, &*gate, replica, &orders),
    )?;
    threads.push_reserved(ordering);
    let reading = thread::spawn(
        &rt,
        move || serve_reads(&rt, alloc, &reads_shared, replica, &reads),
    )?;
    threads.push_reserved(reading);
    Ok(())
}

// Ends the threads and joins them.
fn stop<N: Naming, R: Threads + Wait>(rt: &R, shared: &Shared<N>, threads: Vec<JoinHandle<()>>) {
    shared.end(rt);
    for thread in threads {
        thread.join(rt);
    }
}
