//! Clients that call, each in a thread of its own.

ghost use Rattle.std.specs.Prelude.{◌≡◌, ◌+◌, [], IfOk, OnOk, map};
ghost use Rattle.tuple_codec.specs.OperationView.{operation_of, outcome_of};
ghost use Rattle.cluster_run.specs.Hands.{HasCalled};
ghost use Rattle.cluster_run.specs.Threads.{AddsCalled, AreJoined, AreStarted, StartsThread, promises_of};

use crate::fault::LateFault;
use crate::idle_time::Patience;
use crate::progress::{LOOKS_A_SECOND, Progress, Stage, Watch};
use journal::Naming;
use space_node::{ClientHandle, Cluster};
use std::alloc::Global;
use std::snapshot::Snapshot;
use std::sync::{Arc, Wait};
use std::thread;
use std::thread::{Promise, PromisedHandle, Threads};
use std::time::Clock;
use terms::{Party, ReplicaId};
use tuple_codec::{Answer, Op};

/// The result of a client's thread: the client, and the answers to its operations, in their order.
#[derive(Drop)]
pub(crate) struct Called<N: Naming> {
    client: ClientHandle<N>,
    answers: Result<Vec<Answer<Global>>, LateFault>,
}

/// The promise of a client's thread: if all operations are answered, the client of this number called these, its
/// first ones, and got the answers in the result.
#[derive(Drop)]
pub(crate) struct CallsHand {
    number: u16,
    ops: Snapshot<Vec<Op<Global>>>,
}

impl<N: Naming> Promise<Called<N>> for CallsHand {
    ghost use Rattle.std.specs.Prelude.{IfOk};
    ghost use Rattle.cluster_run.specs.Hands.{HasCalledHand};

    ghost kept_by = { λ promise called. IfOk called.answers
        (λ answers. HasCalledHand promise.ops.value promise.number answers called.client) };
}

/// The results of all threads.
#[derive(Drop)]
pub(crate) struct AllCalled<N: Naming> {
    pub(crate) clients: Vec<ClientHandle<N>>,
    pub(crate) answers: Vec<Vec<Answer<Global>>>,
}

/// The parties of a run: its replicas, how many of them may fail, and the clients that call.
#[derive(Clone, Copy, Drop)]
pub(crate) struct Members<'a> {
    pub(crate) replicas: u8,
    pub(crate) faults: u8,
    pub(crate) clients: &'a [Party],
}

/// The clients that call, and their threads.
pub(crate) struct Callers<N: Naming> {
    pub(crate) parties: Vec<Party>,
    pub(crate) threads: Vec<PromisedHandle<Called<N>, CallsHand>>,
}

/// Starts a thread for each client that has operations, client 0 first. If a client has none, those after it have
/// none either.
pub(crate) fn start_clients<
    N: Naming + Send + Sync + 'static,
    R: Threads + Wait + Copy + Send + 'static,
>(
    rt: R,
    alloc: Global,
    cluster: &mut Cluster<N>,
    hands: Vec<Vec<Op<Global>>>,
    progress: &Arc<Progress, Global>,
    callers: &mut Callers<N>,
) -> Result<(), LateFault>
    requires new { callers.old.threads.items ≡ [] }
    ensures started { OnOk result (AreStarted hands.items (promises_of callers.new.threads.items)) }
{
    for (number, ops) in hands.into_iter().enumerate() {
        if ops.is_empty() {
            return Ok(());
        }
        let number = u16::try_from(number).map_err(|_| LateFault::NoClient)?;
        start_client(rt, alloc, cluster, number, ops, progress, callers)?;
    }
    Ok(())
}

fn start_client<N: Naming + Send + Sync + 'static, R: Threads + Wait + Copy + Send + 'static>(
    rt: R,
    alloc: Global,
    cluster: &mut Cluster<N>,
    number: u16,
    ops: Vec<Op<Global>>,
    progress: &Arc<Progress, Global>,
    callers: &mut Callers<N>,
) -> Result<(), LateFault>
    ensures { OnOk result (StartsThread (promises_of callers.old.threads.items) number ops
        (promises_of callers.new.threads.items)) }
{
    callers.parties.reserve(1)?;
    callers.threads.reserve(1)?;
    let progress = Arc::try_clone(progress)?;
    let client = cluster.client(number).ok_or(LateFault::NoClient)?;
    let party = client.party();
    let promise = CallsHand {
        number,
        ops: Snapshot::of(&ops),
    };
    match thread::spawn_with(
        &rt,
        promise,
        move ||
            requires { client.history ≡ [] }
            ensures { IfOk result.answers (λ answers.
                HasCalled client (map operation_of ops.items) (map outcome_of answers.items) result.client) }
        { call_in_thread(&rt, alloc, client, ops, &progress) },
    ) {
        Ok(thread) => {
            callers.parties.push_reserved(party);
            callers.threads.push_reserved(thread);
            Ok(())
        }
        Err(_refused) => Err(LateFault::NoThread),
    }
}

fn call_in_thread<N: Naming, R: Wait>(
    rt: &R,
    alloc: Global,
    mut client: ClientHandle<N>,
    ops: Vec<Op<Global>>,
    progress: &Progress,
) -> Called<N>
    requires new { client.history ≡ [] }
    ensures { IfOk result.answers
        (λ answers. HasCalled client (map operation_of ops.items) (map outcome_of answers.items) result.client) }
{
    let answers = call_all(rt, alloc, &mut client, ops, progress);
    if let Err(fault) = &answers {
        progress.fail(rt, *fault);
    }
    progress.add_end(rt);
    Called { client, answers }
}

// Calls the operations in their order, up to the first call without an answer.
fn call_all<N: Naming, R: Wait>(
    rt: &R,
    alloc: Global,
    client: &mut ClientHandle<N>,
    ops: Vec<Op<Global>>,
    progress: &Progress,
) -> Result<Vec<Answer<Global>>, LateFault>
    requires new { client.old.history ≡ [] }
    ensures { IfOk result
        (λ answers. HasCalled client.old (map operation_of ops.items) (map outcome_of answers.items) client.new) }
{
    let mut answers = Vec::with_capacity(alloc, ops.len())?;
    for op in ops {
        answers.push(client.call(rt, alloc, op)?)?;
        progress.add_answer(rt);
    }
    Ok(answers)
}

/// Waits until the threads of these clients have ended. If a client fails, or more replicas have stopped than may
/// fail, it ends the cluster, so that the threads end.
///
/// About each second it tells each client that time went by, so that the client sends its waiting request again.
/// After some seconds without an answer it tells the replicas too, so that they change their view if the primary has
/// stopped.
///
/// # Errors
///
/// The fault that ended the cluster.
pub(crate) fn wait_for_clients<N: Naming + Send + Sync + 'static, R: Wait + Clock, W: Watch>(
    rt: &R,
    cluster: &Cluster<N>,
    members: &Members<'_>,
    progress: &Progress,
    watch: &mut W,
) -> Result<(), LateFault> {
    let (mut looks, mut patience) = (0u64, Patience::new());
    for _ in rt.forever() {
        match progress.wait(rt, members.clients.len() as u64) {
            Stage::Calls { answered } => {
                looks = looks.saturating_add(1);
                if cluster.count_stopped(rt) > members.faults {
                    progress.fail(rt, LateFault::TooManyStopped);
                }
                if looks.is_multiple_of(LOOKS_A_SECOND) {
                    tell_of_second(rt, cluster, members, patience.ends(answered));
                    watch.note(looks / LOOKS_A_SECOND, answered);
                }
            }
            Stage::Done => {
                watch.end();
                return Ok(());
            }
            Stage::Failed(fault) => {
                watch.end();
                cluster.end(rt);
                return Err(fault);
            }
        }
    }
    unreachable!()
}

// Tells the clients that time went by, and the replicas too if no operation was answered for too long.
fn tell_of_second<N: Naming + Send + Sync + 'static, R: Wait>(
    rt: &R,
    cluster: &Cluster<N>,
    members: &Members<'_>,
    too_long: bool,
) {
    if too_long {
        for number in 0..members.replicas {
            cluster.pulse(rt, Party::Replica(ReplicaId(number)));
        }
    }
    for client in members.clients {
        cluster.pulse(rt, *client);
    }
}

/// Joins the threads. They have ended even if it gives an error.
pub(crate) fn join_clients<N: Naming, R: Threads>(
    rt: &R,
    alloc: Global,
    threads: Vec<PromisedHandle<Called<N>, CallsHand>>,
    all: &mut AllCalled<N>,
) -> Result<(), LateFault>
    requires no_client { all.old.clients.items ≡ [] }
    requires no_answers { all.old.answers.items ≡ [] }
    ensures { OnOk result (AreJoined (promises_of threads.items) all.new.clients.items all.new.answers.items) }
{
    let mut outcome = Ok(());
    for thread in threads {
        let added = all.add(thread.join(rt));
        outcome = outcome.and(added);
    }
    outcome
}

impl<N: Naming> Callers<N> {
    pub(crate) fn new(alloc: Global) -> Callers<N>
        ensures { result.threads.items ≡ [] }
    {
        Callers {
            parties: Vec::new(alloc),
            threads: Vec::new(alloc),
        }
    }
}

impl<N: Naming> AllCalled<N> {
    pub(crate) fn new(alloc: Global) -> AllCalled<N>
        ensures clients { result.clients.items ≡ [] }
        ensures answers { result.answers.items ≡ [] }
    {
        AllCalled {
            clients: Vec::new(alloc),
            answers: Vec::new(alloc),
        }
    }

    fn add(&mut self, called: Called<N>) -> Result<(), LateFault>
        ensures { OnOk result (AddsCalled self.old called self.new) }
    {
        let Called { client, answers } = called;
        self.clients.push(client)?;
        self.answers.push(answers?)?;
        Ok(())
    }
}
