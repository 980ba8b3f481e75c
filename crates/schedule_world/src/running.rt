//! Runs of schedules.

ghost use Rattle.std.specs.Prelude.{◌≡◌, IfOk, IfErr, OnOk};
ghost use Rattle.terms.specs.Parties.{party_number};
ghost use Rattle.tuple_codec.specs.OperationView.{operation_of};
ghost use Rattle.protocol.specs.System.Schedule.Step.{calls, ticks};
ghost use Rattle.protocol.specs.System.Schedule.Step.{deliver as deliver_step, feed as feed_step};
ghost use Rattle.schedule_text.specs.StepView.{step_of};
ghost use Rattle.schedule_world.specs.Moving.{StepIsTaken, seal_of, sign_of};
ghost use Rattle.schedule_world.specs.Reporting.{IsReportOf};
ghost use Rattle.schedule_world.specs.Reports.{ReportIsRight, FaultIsRight};
ghost use Rattle.schedule_world.specs.Stages.{PartiesArePlaced, IsStanding};

use crate::faulty::FaultyParty;
use crate::making::{seal_bytes, sign_bytes};
use crate::receivers::{is_correct, is_party, is_replica, may_receive};
use crate::report::Report;
use crate::stage::{Parties, Stage};
use events::{Config, SharedBytes};
use points::points;
use schedule_text::Step;
use signing::LEAVES;
use std::alloc::Global;
use std::fmt;
use terms::{ClientId, NoMemory, Party};
use thiserror::Error;
use tuple_codec::Op;

/// Why a schedule was not run.
#[derive(Drop, Error)]
pub enum RunFault {
    /// The step of this index, from 0, is not allowed at its place. The report is that of the steps before it.
    #[error("step {step} may not come")]
    BadSchedule { step: usize, before: Report },
    #[error("out of memory")]
    NoMemory,
}

impl fmt::Debug for RunFault {
    fn fmt<W: fmt::Write>(&self, f: &mut fmt::Formatter<W>) -> fmt::Result {
        match self {
            RunFault::BadSchedule { step, .. } => write!(f, "BadSchedule {{ step: {step}, .. }}"),
            RunFault::NoMemory => write!(f, "NoMemory"),
        }
    }
}

impl From<NoMemory> for RunFault {
    ghost use Rattle.std.specs.Prelude.{◌≡◌};
    ghost use Rattle.schedule_world.specs.declared.running.RunFault.TheVariants.{NoMemory as no_memory};

    ghost from_gives = { λ _ fault. fault ≡ no_memory };

    fn from(_failed: NoMemory) -> RunFault {
        RunFault::NoMemory
    }
}

/// Plays the steps in order. If at most `f` of the `3f + 1` replicas and any clients are faulty, the answers that
/// correct clients accept, of reads and writes alike, are those of one sequential tuple space. Each operation acts at
/// most once there, an accepted one exactly once, at a position between its invocation and its acceptance (Herlihy and
/// Wing, Linearizability, TOPLAS 1990).
///
/// The report names the correct parties that ran out of memory and stopped. Each other correct party does all that it
/// owes.
///
/// # Errors
///
/// BadSchedule with the first step that is not allowed and the report of the steps before it; NoMemory if memory runs
/// out.
pub fn run(alloc: Global, config: &Config, steps: &[Step]) -> Result<Report, RunFault>
    ensures tells { IfOk result (ReportIsRight config.now steps.now) }
    ensures stops { IfErr result (FaultIsRight config.now steps.now) }
{
    let mut stage = Stage::new(alloc, config)?;
    let mut faulty = Vec::new(alloc);
    for (i, step) in steps.iter().enumerate() {
        if !take_step(&mut stage, alloc, config, &mut faulty, step)? {
            let before = report_of(stage, alloc, config)?;
            return Err(RunFault::BadSchedule { step: i, before });
        }
    }
    Ok(report_of(stage, alloc, config)?)
}

// The report of the steps that led here.
fn report_of(stage: Stage, alloc: Global, config: &Config) -> Result<Report, NoMemory>
    requires { PartiesArePlaced config.now stage }
    ensures { IfOk result (IsReportOf config.now stage) }
{
    let stopped = stage.stopped(alloc, config)?;
    let Stage {
        replicas,
        stage_clients,
        pool,
        trace,
        accepted,
    } = stage;
    let parties = Parties {
        replicas,
        stage_clients,
        pool,
    };
    let points = points(alloc, config, trace.as_slice())?;
    Ok(Report {
        trace,
        accepted,
        points,
        stopped,
        parties,
    })
}

// Plays a step, and returns whether it is allowed; one that is not changes nothing. Faulty parties seal and sign by
// their own keys.
fn take_step(
    stage: &mut Stage,
    alloc: Global,
    config: &Config,
    faulty: &mut Vec<FaultyParty>,
    step: &Step,
) -> Result<bool, NoMemory>
    requires placed { PartiesArePlaced config.now stage.old }
    requires stands { IsStanding config.now stage.old }
    ensures placed { OnOk result (PartiesArePlaced config.now stage.new) }
    ensures takes { IfOk result (StepIsTaken config.now (step_of step.now) stage.old stage.new) }
{
    match step {
        Step::Invoke { client, op } => call(stage, alloc, config, *client, op),
        Step::Deliver { frame, party } => deliver(stage, alloc, config, *frame, *party),
        Step::Feed { party, bytes } => feed(stage, alloc, config, *party, bytes.as_slice()),
        Step::Seal {
            sender,
            receivers,
            body,
        } => seal(
            stage,
            alloc,
            config,
            faulty,
            *sender,
            receivers.as_slice(),
            body.as_slice(),
        ),
        Step::Sign {
            signer,
            leaf,
            receivers,
            body,
        } => sign(
            stage,
            alloc,
            config,
            faulty,
            *signer,
            *leaf,
            receivers.as_slice(),
            body.as_slice(),
        ),
        Step::Tick { party } => tick(stage, alloc, config, *party),
        Step::Flush => {
            stage.flush(alloc, config)?;
            Ok(true)
        }
    }
}

fn call(
    stage: &mut Stage,
    alloc: Global,
    config: &Config,
    client: ClientId,
    op: &Op<Global>,
) -> Result<bool, NoMemory>
    requires placed { PartiesArePlaced config.now stage.old }
    ensures placed { OnOk result (PartiesArePlaced config.now stage.new) }
    ensures takes { IfOk result (StepIsTaken config.now
        (calls client.number (operation_of op.now)) stage.old stage.new) }
{
    if !config.is_correct_client(Party::Client(client).number()) || stage.is_open(client) {
        return Ok(false);
    }
    op.note_valid();
    let copy = op.copy_in(alloc)?;
    let told = op.copy_in(alloc)?;
    stage.call(alloc, config, client, copy, told)?;
    Ok(true)
}

fn deliver(
    stage: &mut Stage,
    alloc: Global,
    config: &Config,
    frame: u64,
    party: Party,
) -> Result<bool, NoMemory>
    requires placed { PartiesArePlaced config.now stage.old }
    ensures placed { OnOk result (PartiesArePlaced config.now stage.new) }
    ensures takes { IfOk result (StepIsTaken config.now (deliver_step frame (party_number party)) stage.old stage.new) }
{
    let frame = frame as usize;
    if !stage.has_frame(frame) || !is_correct(config, party) {
        return Ok(false);
    }
    stage.deliver(alloc, config, frame, party)?;
    Ok(true)
}

fn feed(
    stage: &mut Stage,
    alloc: Global,
    config: &Config,
    party: Party,
    bytes: &[u8],
) -> Result<bool, NoMemory>
    requires placed { PartiesArePlaced config.now stage.old }
    ensures placed { OnOk result (PartiesArePlaced config.now stage.new) }
    ensures takes { IfOk result (StepIsTaken config.now
        (feed_step (party_number party) bytes.now) stage.old stage.new) }
{
    if !is_correct(config, party) {
        return Ok(false);
    }
    let copy = Vec::from_slice(alloc, bytes)?;
    stage.feed(alloc, config, party, SharedBytes::new(copy)?)?;
    Ok(true)
}

fn seal(
    stage: &mut Stage,
    alloc: Global,
    config: &Config,
    faulty: &mut Vec<FaultyParty>,
    sender: Party,
    receivers: &[Party],
    body: &[u8],
) -> Result<bool, NoMemory>
    requires placed { PartiesArePlaced config.now stage.old }
    ensures placed { OnOk result (PartiesArePlaced config.now stage.new) }
    ensures takes { IfOk result (StepIsTaken config.now (seal_of sender receivers.now body.now) stage.old stage.new) }
{
    if !is_party(config, sender) || is_correct(config, sender) || !may_receive(config, receivers) {
        return Ok(false);
    }
    let bytes = seal_bytes(alloc, config, faulty, sender, receivers, body)?;
    stage.add_made(alloc, config, bytes, receivers)?;
    Ok(true)
}

fn sign(
    stage: &mut Stage,
    alloc: Global,
    config: &Config,
    faulty: &mut Vec<FaultyParty>,
    signer: Party,
    leaf: u64,
    receivers: &[Party],
    body: &[u8],
) -> Result<bool, NoMemory>
    requires placed { PartiesArePlaced config.now stage.old }
    ensures placed { OnOk result (PartiesArePlaced config.now stage.new) }
    ensures takes { IfOk result (StepIsTaken config.now
        (sign_of signer leaf receivers.now body.now) stage.old stage.new) }
{
    if !is_replica(config, signer) || is_correct(config, signer) {
        return Ok(false);
    }
    if leaf >= u64::from(LEAVES) || !may_receive(config, receivers) {
        return Ok(false);
    }
    let bytes = sign_bytes(alloc, config, faulty, signer, leaf as u8, body)?;
    stage.add_made(alloc, config, bytes, receivers)?;
    Ok(true)
}

fn tick(stage: &mut Stage, alloc: Global, config: &Config, party: Party) -> Result<bool, NoMemory>
    requires placed { PartiesArePlaced config.now stage.old }
    ensures placed { OnOk result (PartiesArePlaced config.now stage.new) }
    ensures takes { IfOk result (StepIsTaken config.now (ticks (party_number party)) stage.old stage.new) }
{
    if !is_correct(config, party) {
        return Ok(false);
    }
    stage.tick(alloc, config, party)?;
    Ok(true)
}
