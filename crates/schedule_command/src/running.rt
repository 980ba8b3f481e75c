//! A schedule in a world of its own.

ghost use Rattle.std.specs.Prelude.{◌≡◌, [], OnOk, IfErr};
ghost use Rattle.picture.specs.Pictures.{AppendsPicture};
ghost use Rattle.schedule_world.specs.Reports.{StopsHere};
ghost use Rattle.schedule_command.specs.Commands.{EndsSchedule, TellsReport};
ghost use Rattle.schedule_command.specs.Faults.{IsPictureFault};
ghost use Rattle.schedule_command.specs.Writing.{EndsRun, RunsAll, StopsRun, WritesPrinted};

use crate::allowed::why;
use crate::fault::{ScheduleFault, StepReason};
use crate::writing::{put_report, write_out, write_trace};
use command_line::{Positions, Printed};
use events::{Config, Entry, EntryKind};
use picture::{Run, write_picture};
use schedule_lines::Schedule;
use schedule_text::Step;
use schedule_world::{Report, RunFault, run};
use std::alloc::Global;
use std::io::{Read, Write};
use std::mem::forget;

/// Runs the lines of a schedule and writes the report: the accepted answers, the points, and the number of entries of
/// the trace. If requested, it writes each entry before the report, or the picture in place of both. Nothing is
/// written for a refused schedule. The memory of a run that ended is left to the end of the process.
pub fn schedule<R: Read + Drop, W: Write>(
    alloc: Global,
    config: &Config,
    reader: R,
    printed: Printed,
    writer: &mut W,
) -> Result<(), ScheduleFault>
    ensures { EndsSchedule config.now printed (R.remaining reader) result
        (W.contents writer.old) (W.contents writer.new) }
{
    let report = report_of(alloc, config, reader)?;
    let written = write_printed(alloc, config, &report, printed, writer);
    // The command ends here, and its process with it: giving back each block of a long run takes a tenth of its time.
    forget(report);
    written
}

// The report of the run of all lines.
fn report_of<R: Read + Drop>(
    alloc: Global,
    config: &Config,
    reader: R,
) -> Result<Report, ScheduleFault>
    ensures { TellsReport config.now (R.remaining reader) result }
{
    let schedule = Schedule::read(alloc, reader)?;
    let report = run_all(alloc, config, &schedule);
    forget(schedule);
    report
}

// The steps before a line that is none run too, and one of them may be refused before that line.
fn run_all(alloc: Global, config: &Config, schedule: &Schedule) -> Result<Report, ScheduleFault>
    ensures { RunsAll config.now schedule.now result }
{
    match run(alloc, config, schedule.steps.as_slice()) {
        Ok(report) => end_run(report, schedule),
        Err(RunFault::BadSchedule { step, before }) => {
            let fault = refusal(config, schedule, step, &before);
            forget(before);
            Err(fault)
        }
        Err(RunFault::NoMemory) => Err(ScheduleFault::NoMemory),
    }
}

// All steps ran. The line behind them may be none.
fn end_run(report: Report, schedule: &Schedule) -> Result<Report, ScheduleFault>
    ensures { EndsRun schedule.now report result }
{
    match schedule.refused {
        None => Ok(report),
        Some(refused) => {
            forget(report);
            Err(ScheduleFault::Step {
                line: refused.number,
                reason: StepReason::of_line(refused.reason),
            })
        }
    }
}

// The refusal of the step of this index, which the report of those before it leads to.
fn refusal(config: &Config, schedule: &Schedule, n: usize, before: &Report) -> ScheduleFault
    requires { StopsHere config.now schedule.now.steps.items n before.now }
    ensures { StopsRun config.now schedule.now result }
{
    let step = &schedule.steps[n];
    let made = frames_made(&schedule.steps[..n], before.trace.as_slice());
    ScheduleFault::Step {
        line: schedule.numbers[n],
        reason: StepReason::NotAllowed(why(config, step, made)),
    }
}

// How many frames are made after these steps, which led to this trace.
fn frames_made(steps: &[Step], trace: &[Entry]) -> u64 {
    let made = steps
        .iter()
        .filter(|step| matches!(step, Step::Seal { .. } | Step::Sign { .. }))
        .count() as u64;
    let sent = trace
        .iter()
        .filter(|entry| matches!(entry.kind(), EntryKind::Sent(..)))
        .count() as u64;
    made.saturating_add(sent)
}

fn write_printed<W: Write>(
    alloc: Global,
    config: &Config,
    report: &Report,
    printed: Printed,
    writer: &mut W,
) -> Result<(), ScheduleFault>
    ensures { WritesPrinted W.contents result writer.old writer.new printed report.now }
{
    let mut text = Vec::new(alloc);
    match printed {
        Printed::Report => put_report(report, &mut text)?,
        Printed::Trace => {
            write_trace(alloc, report.trace.as_slice(), &mut text, writer)?;
            put_report(report, &mut text)?;
        }
        Printed::Picture(positions) => draw(alloc, config, report, positions, &mut text)?,
    }
    write_out(&mut text, writer)
}

fn draw(
    alloc: Global,
    config: &Config,
    report: &Report,
    positions: Positions,
    text: &mut Vec<u8>,
) -> Result<(), ScheduleFault>
    ensures ok { OnOk result (AppendsPicture text.old.items text.new.items) }
    ensures err { IfErr result IsPictureFault }
{
    let run = Run {
        config,
        trace: report.trace.as_slice(),
        points: report.points.as_slice(),
    };
    let Positions { from, to } = positions;
    match write_picture(alloc, run, from, to, text) {
        Ok(()) => Ok(()),
        Err(fault) => Err(ScheduleFault::of_picture(fault, from)),
    }
}
