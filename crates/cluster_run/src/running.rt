//! A run, from the operations to their answers.

ghost use Rattle.std.specs.Prelude.{◌≡◌, ◌↔◌, ◌<◌, ◌*◌, ◌≤◌, ℕ, [], IfOk, IsTrue, OnOk, length, map};
ghost use Rattle.tuple_codec.specs.OperationView.{operation_of, outcome_of};
ghost use Rattle.cluster_run.specs.Answers.{AnswersRun};
ghost use Rattle.cluster_run.specs.Room.{least_entries};
ghost use Rattle.cluster_run.specs.declared.fault.RunFault.TheVariants as RunFault;
ghost use Rattle.space_node.specs.Drills.{MayStart, replicas_of};
ghost use Rattle.cluster_run.specs.Hands.{HandsAreCalled, HasTrace};

use crate::calling::{AllCalled, Callers, Members, join_clients, start_clients, wait_for_clients};
use crate::dealing::{deal, gather};
use crate::fault::{LateFault, RunFault};
use crate::progress::{Progress, Watch};
use crate::report::{Parties, Report};
use crate::room::least_entries;
use events::Config;
use journal::{Naming, Opened};
use space_node::{ClientHandle, Cluster, Drill, FinishFault, Gate, Run, StartFault, may_start};
use std::alloc::Global;
use std::sync::{Arc, Wait};
use std::thread::Threads;
use std::time::Clock;
use tuple_codec::Op;

/// Starts a cluster whose journal takes up to `limit` entries, 1 to 65,536 in the program, and has its clients call the
/// operations. Each faulty replica of the configuration does the drill with its number. Client `i` modulo the number of
/// clients calls operation `i`, counted from 0. Each client calls its own in their order, in a thread of its own. The
/// answers are in the order of the operations, and the parties are as the run left them.
///
/// About each second it tells each client that time went by, and then `watch` how many operations are answered. After
/// three seconds without an answer, and each time after twice as many, it tells the replicas too. So they replace a
/// primary that stopped. The gate may hold nodes, as in a test.
///
/// # Errors
///
/// BadConfig exactly if the drills are not those of the faulty replicas, each once and in any order, or a client is
/// faulty. Otherwise NoRoom exactly if the limit is below [`least_entries`] for each operation: no run could answer
/// them all ([`answered_operations_take_entries`](crate::answered_operations_take_entries)). Nothing has started then.
/// The run ends at the first of the others, and all threads have ended then:
///
/// - Call if a call was not answered
/// - TooManyStopped if more replicas have stopped than may fail
/// - NotInJournal if the journal has another history of a party than the party itself
/// - NoThread if no thread could be started
/// - NoAnswer if a client gave back too few answers
/// - NoMemory if memory ran out.
pub fn run<
    N: Naming + Send + Sync + 'static,
    R: Threads + Wait + Clock + Copy + Send + 'static,
    G: Gate + Send + Sync + Drop + 'static,
    W: Watch,
>(
    rt: &R,
    alloc: Global,
    opened: Opened,
    config: &Config,
    limit: u32,
    gate: G,
    drills: Vec<(u16, Drill)>,
    ops: Vec<Op<Global>>,
    watch: &mut W,
) -> Result<Report<N>, RunFault>
    requires config { config.now ≡ N.config }
    requires book { opened ≡ N.book }
    ensures answers { IfOk result
        (λ report. AnswersRun N.config (map operation_of ops.items) (map outcome_of report.answers.items)) }
    ensures faulty { (result ≡ Err RunFault.BadConfig)
        ↔ (¬ MayStart config.now (replicas_of drills.items)) }
    ensures room { (least : ℕ) → (result ≡ Err (RunFault.NoRoom least))
        ↔ (MayStart config.now (replicas_of drills.items)
        × (least ≡ least_entries config.now) × (limit < length ops.items * least)) }
{
    if !may_start(config, drills.as_slice()) {
        return Err(RunFault::BadConfig);
    }
    let least = least_entries(config);
    if !has_room(limit, ops.len(), least) {
        return Err(RunFault::NoRoom { least });
    }
    let run = run_drilled::<N, R, G, W>(rt, alloc, opened, config, limit, gate, drills, ops, watch);
    Ok(run?)
}

// Whether the journal may take so many operations, if each takes at least so many entries.
fn has_room(limit: u32, count: usize, least: u32) -> bool
    requires some { 0 < least }
    ensures { IsTrue result ↔ (count * least ≤ limit) }
{
    count <= (limit / least) as usize
}

// The run of a cluster that may start with these drills.
fn run_drilled<
    N: Naming + Send + Sync + 'static,
    R: Threads + Wait + Clock + Copy + Send + 'static,
    G: Gate + Send + Sync + Drop + 'static,
    W: Watch,
>(
    rt: &R,
    alloc: Global,
    opened: Opened,
    config: &Config,
    limit: u32,
    gate: G,
    drills: Vec<(u16, Drill)>,
    ops: Vec<Op<Global>>,
    watch: &mut W,
) -> Result<Report<N>, LateFault>
    requires config { config.now ≡ N.config }
    requires book { opened ≡ N.book }
    requires may { MayStart config.now (replicas_of drills.items) }
    ensures { IfOk result
        (λ report. AnswersRun N.config (map operation_of ops.items) (map outcome_of report.answers.items)) }
{
    let clients = usize::from(config.clients());
    let count = ops.len();
    let hands = deal(alloc, clients, ops)?;
    let progress = Arc::new(alloc, Progress::new())?;
    let mut all = AllCalled::new(alloc);
    let started = Cluster::<N>::start_with_drills(rt, alloc, opened, config, limit, gate, drills);
    let mut cluster = match started {
        Ok(cluster) => cluster,
        Err(StartFault::BadConfig) => unreachable!(),
        Err(StartFault::NoThread) => return Err(LateFault::NoThread),
        Err(StartFault::NoMemory) => return Err(LateFault::NoMemory),
    };
    let called = call_all(
        rt,
        alloc,
        &mut cluster,
        config,
        hands,
        &progress,
        watch,
        &mut all,
    );
    let AllCalled {
        clients: handles,
        answers,
    } = all;
    let finished = finish(rt, alloc, cluster, handles.as_slice());
    called?;
    let run = finished?;
    let answers = gather(alloc, clients, answers, count)?;
    let parties = Parties { run, handles };
    Ok(Report { answers, parties })
}

// Has the clients call all their operations. The caller has to finish the cluster, whatever the calls give.
fn call_all<
    N: Naming + Send + Sync + 'static,
    R: Threads + Wait + Clock + Copy + Send + 'static,
    W: Watch,
>(
    rt: &R,
    alloc: Global,
    cluster: &mut Cluster<N>,
    config: &Config,
    hands: Vec<Vec<Op<Global>>>,
    progress: &Arc<Progress, Global>,
    watch: &mut W,
    all: &mut AllCalled<N>,
) -> Result<(), LateFault>
    requires no_client { all.old.clients.items ≡ [] }
    requires no_answers { all.old.answers.items ≡ [] }
    ensures { OnOk result (HandsAreCalled hands.items all.new.clients.items all.new.answers.items) }
{
    let mut callers = Callers::new(alloc);
    let started = start_clients(*rt, alloc, cluster, hands, progress, &mut callers);
    if let Err(fault) = &started {
        progress.fail(rt, *fault);
    }
    let Callers { parties, threads } = callers;
    let members = Members {
        replicas: config.replicas(),
        faults: config.faults(),
        clients: parties.as_slice(),
    };
    let ended = wait_for_clients(rt, cluster, &members, progress, watch);
    let joined = join_clients(rt, alloc, threads, all);
    // The fault that ended the cluster led to the others.
    ended.and(started).and(joined)
}

fn finish<N: Naming + Send + Sync + 'static, R: Threads + Wait>(
    rt: &R,
    alloc: Global,
    cluster: Cluster<N>,
    clients: &[ClientHandle<N>],
) -> Result<Run<N>, LateFault>
    ensures { OnOk result (HasTrace N.config clients.now) }
{
    match cluster.finish(rt, alloc, clients) {
        Ok(run) => Ok(run),
        Err(FinishFault::NotInJournal(_run, _party)) => Err(LateFault::NotInJournal),
        Err(FinishFault::NoMemory) => Err(LateFault::NoMemory),
    }
}
