//! A script on a running cluster.

ghost use Rattle.std.specs.Prelude.{◌≡◌, ◌+◌, ◌/◌, ◌++◌, IfOk, OnOk};
ghost use Rattle.cluster_run.specs.Room.{least_entries};
ghost use Rattle.run_command.specs.Results.{EndsCluster, IsRunStatus, TellsRun, WritesResults, answer_line, results_text};

use crate::drills::DrillFault;
use crate::summary::Summary;
use cluster_run::{Drill, Gate, Report, RunFault as ClusterFault, Watch, least_entries};
use config_text::Settings;
use journal::{Naming, Opened};
use one_space::{Complaint, StandardError, complain};
use std::alloc::Global;
use std::io::{self, Write};
use std::mem::forget;
use std::sync::Wait;
use std::thread::Threads;
use std::time::{Clock, Instant};
use terms::NoMemory;
use thiserror::Error;
use tuple_codec::{Answer, Op};
use tuple_text::write_answer;

/// Why no results were printed, or not all.
#[derive(Debug, Drop, Error)]
pub enum RunFault {
    /// The configuration names a faulty party.
    #[error("the configuration names a faulty party")]
    Configuration,
    /// No cluster of the configuration has these drills.
    #[error("{0}")]
    Drills(DrillFault),
    /// The cluster gave no answers.
    #[error("{0}")]
    Stopped(ClusterFault),
    #[error("out of memory")]
    NoMemory,
    #[error("not written: {0}")]
    Write(io::Error),
}

impl RunFault {
    /// The complaint about this fault.
    pub fn complaint(&self) -> Complaint<'static>
        ensures { TellsRun self.now result }
    {
        match self {
            RunFault::Configuration | RunFault::Drills(_) => Complaint::Configuration,
            RunFault::Stopped(_) | RunFault::NoMemory => Complaint::Stopped,
            RunFault::Write(error) => Complaint::of_write(error),
        }
    }
}

impl From<NoMemory> for RunFault {
    ghost use Rattle.std.specs.Prelude.{◌≡◌};
    ghost use Rattle.run_command.specs.declared.running.RunFault.TheVariants.{NoMemory};

    ghost from_gives = { λ _ fault. fault ≡ NoMemory };

    fn from(_failed: NoMemory) -> RunFault {
        RunFault::NoMemory
    }
}

impl From<ClusterFault> for RunFault {
    ghost use Rattle.run_command.specs.Results.{IsNoWrite};

    ghost from_gives = { λ _ fault. IsNoWrite fault };

    fn from(fault: ClusterFault) -> RunFault {
        match fault {
            ClusterFault::BadConfig => RunFault::Configuration,
            ClusterFault::NoMemory => RunFault::NoMemory,
            ClusterFault::NoClient
            | ClusterFault::NoRoom { .. }
            | ClusterFault::Call(_)
            | ClusterFault::TooManyStopped
            | ClusterFault::NotInJournal
            | ClusterFault::NoThread
            | ClusterFault::NoAnswer => RunFault::Stopped(fault),
        }
    }
}

/// How many operations of a script are read. One more than the journal can have room for shows that the script doesn't
/// fit.
pub fn most_operations(settings: &Settings) -> usize
    ensures { result ≡ settings.now.journal / least_entries settings.now.config + 1 }
{
    (settings.journal / least_entries(&settings.config)) as usize + 1
}

/// Runs the operations on a cluster of its own and writes the results, a line each, in their order. Each faulty replica
/// of the configuration does the drill with its number. Client `i` modulo the number of clients calls operation `i`,
/// counted from 0, and the line is the answer that this client accepted. Nothing is written unless each call was
/// answered and the cluster finished. The memory of a run that ended is left to the end of the process. Gives a summary
/// if one is asked for and memory suffices.
pub fn run<
    N: Naming + Send + Sync + 'static,
    R: Threads + Wait + Clock + Copy + Send + 'static,
    G: Gate + Send + Sync + Drop + 'static,
    W: Write,
    S: Watch,
>(
    rt: &R,
    alloc: Global,
    opened: Opened,
    settings: &Settings,
    gate: G,
    drills: Vec<(u16, Drill)>,
    ops: Vec<Op<Global>>,
    writer: &mut W,
    watch: &mut S,
    has_summary: bool,
) -> Result<Option<Summary>, RunFault>
    requires config { settings.now.config ≡ N.config }
    requires book { opened ≡ N.book }
    ensures { EndsCluster N.config ops.items result (W.contents writer.old) (W.contents writer.new) }
{
    let began = Instant::now(rt);
    let report = cluster_run::run::<N, R, G, S>(
        rt,
        alloc,
        opened,
        &settings.config,
        settings.journal,
        gate,
        drills,
        ops,
        watch,
    )?;
    let written = write_results(alloc, report.answers.as_slice(), writer);
    let summary = summary_of(rt, alloc, &report, settings.journal, began, has_summary);
    // The command ends here, and its process with it: giving back each block of a run takes a thirtieth of its time.
    forget(report);
    match written {
        Ok(()) => Ok(summary),
        Err(fault) => Err(fault),
    }
}

// The summary of a run that began at this time, if it is asked for, the clock tells it and memory suffices.
fn summary_of<N: Naming, R: Clock>(
    rt: &R,
    alloc: Global,
    report: &Report<N>,
    limit: u32,
    began: io::Result<Instant>,
    is_wanted: bool,
) -> Option<Summary> {
    if !is_wanted {
        return None;
    }
    let time = began.ok()?.elapsed(rt).ok()?;
    let calls = report.answers.len();
    Summary::of(alloc, &report.parties, limit, calls, time).ok()
}

/// Complains, and gives the status of the program.
pub fn end_run<R: Eprint>(rt: &R, fault: &RunFault) -> u8
    ensures { IsRunStatus fault.now result }
{
    complain(&mut StandardError::new(rt), fault.complaint(), fault)
}

// Writes a result line for each answer.
fn write_results<W: Write>(
    alloc: Global,
    answers: &[Answer<Global>],
    writer: &mut W,
) -> Result<(), RunFault>
    ensures { WritesResults result answers.now (W.contents writer.old) (W.contents writer.new) }
{
    let text = results_of(alloc, answers)?;
    if let Err(error) = writer.write_all(text.as_slice()) {
        return Err(RunFault::Write(error));
    }
    if let Err(error) = writer.flush() {
        return Err(RunFault::Write(error));
    }
    Ok(())
}

fn results_of(alloc: Global, answers: &[Answer<Global>]) -> Result<Vec<u8>, NoMemory>
    ensures { IfOk result (λ text. text.items ≡ results_text answers.now) }
{
    let mut text = Vec::new(alloc);
    for answer in answers {
        put_result(answer, &mut text)?;
    }
    Ok(text)
}

// Adds the result line of an answer.
fn put_result(answer: &Answer<Global>, text: &mut Vec<u8>) -> Result<(), NoMemory>
    ensures { OnOk result (text.new.items ≡ text.old.items ++ answer_line answer.now) }
{
    write_answer(answer, text)?;
    text.push(b'\n')?;
    Ok(())
}
