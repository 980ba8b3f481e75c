//! Runs in tables: the world, the steps, and the properties of the report. One function makes a run and looks at it,
//! so a test owns nothing. Where memory runs out a run comes out otherwise.

use crate::reports::{
    Batch, Cut, Got, PointRow, Row, accepts, are_accepted_at, are_got, count_of, done_and_read,
    execute, executes_at, has_points, installs, senders_are, sends_last, texts_are,
};
use crate::worlds::{World, are_put, config_of, party_of};
use events::Config;
use schedule_text::Step;
use schedule_world::{Report, RunFault, run};
use std::alloc::Global;
use std::ops::Range;
use std::process::Abort;
use terms::Party;

/// Steps of a run. Parties stand there by their numbers.
#[derive(Clone, Copy)]
pub enum Part<'a> {
    /// The steps of these lines.
    Lines(&'a [&'a str]),
    /// These so often.
    Repeated(usize, &'a [&'a str]),
    /// Each of these parties gets each frame from the first to the one before the second.
    Frames(u64, u64, &'a [u16]),
    /// Legs one after another.
    Walk(&'a [Leg<'a>]),
    /// Faulty replica 3 makes a frame of no bytes for nobody, which no line can say.
    ForNobody,
}

/// The steps of lines, and then frames that go to parties one by one. How many frames were made before the leg stands
/// first, and each frame by how many more were made before it.
pub type Leg<'a> = (u64, &'a [&'a str], &'a [(u64, u16)]);

/// A property of a report.
pub enum Check<'a> {
    /// There are so many entries.
    Entries(usize),
    /// So many frames of this type are sent.
    Sent(u8, usize),
    /// So many of them by this party.
    SentBy(u16, u8, usize),
    /// These parties send the frames, one each.
    Senders(&'a [u16]),
    /// The party's frames of a type have these texts at a place, in this order, and so many bytes after them if their
    /// number is given.
    Texts(Cut, Option<usize>, &'a [&'a [u8]]),
    /// The last entry is a frame of this party, which has these bytes from this place on.
    Last(u16, usize, &'a [u8]),
    /// Each of these replicas executes these batches.
    Execute(&'a [u8], &'a [Batch]),
    /// At these positions these replicas execute number 1, of one request.
    ExecutesAt(&'a [(usize, u8)]),
    /// Replica 3 alone installs a state, that of this number.
    Installs(u64),
    /// These answers are accepted, and no party stops.
    Accepts(&'a [Row<'a>]),
    /// They are accepted at these positions.
    AcceptedAt(&'a [usize]),
    /// So many are accepted.
    Accepted(usize),
    /// The first calls of so many clients are done, and one more answer comes last.
    DoneAndRead(u16, Row<'a>),
    /// These are the points.
    Points(&'a [PointRow<'a>]),
    /// There are so many.
    PointCount(usize),
    /// These parties get frames with these digests, and there is no other entry.
    Got(&'a [Got<'a>]),
    NobodyStops,
}

/// A run, and the properties of its report: of the whole one, or of that before a step that may not come.
#[derive(Clone, Copy)]
pub struct Run<'a> {
    pub world: World<'a>,
    pub parts: &'a [Part<'a>],
    /// The first step that may not come.
    pub refused: Option<usize>,
    pub checks: &'a [Check<'a>],
}

fn are_repeated(alloc: Global, times: usize, lines: &[&str], steps: &mut Vec<Step>) -> bool {
    for _ in 0..times {
        if !are_put(alloc, lines, steps) {
            return false;
        }
    }
    true
}

/// Appends the delivery of a frame, and tells whether memory was enough.
pub fn is_delivery_put(frame: u64, party: Party, steps: &mut Vec<Step>) -> bool {
    let Ok(()) = steps.reserve(1) else {
        return false;
    };
    steps.push_reserved(Step::Deliver { frame, party });
    true
}

fn are_all_to(frame: u64, parties: &[u16], steps: &mut Vec<Step>) -> bool {
    for party in parties {
        if !is_delivery_put(frame, party_of(*party), steps) {
            return false;
        }
    }
    true
}

fn are_frames_put(frames: Range<u64>, parties: &[u16], steps: &mut Vec<Step>) -> bool {
    for frame in frames {
        if !are_all_to(frame, parties, steps) {
            return false;
        }
    }
    true
}

fn are_put_behind(made: u64, rows: &[(u64, u16)], steps: &mut Vec<Step>) -> bool {
    for (behind, party) in rows {
        if !is_delivery_put(made.saturating_add(*behind), party_of(*party), steps) {
            return false;
        }
    }
    true
}

fn are_legs_put(alloc: Global, legs: &[Leg<'_>], steps: &mut Vec<Step>) -> bool {
    for (made, lines, rows) in legs {
        if !are_put(alloc, lines, steps) || !are_put_behind(*made, rows, steps) {
            return false;
        }
    }
    true
}

fn is_empty_frame_put(alloc: Global, steps: &mut Vec<Step>) -> bool {
    let Ok(()) = steps.reserve(1) else {
        return false;
    };
    steps.push_reserved(Step::Seal {
        sender: party_of(3),
        receivers: Vec::new(alloc),
        body: Vec::new(alloc),
    });
    true
}

// Whether the steps were put: memory ran out for none, and each line is a step.
fn is_part_put(alloc: Global, part: &Part<'_>, steps: &mut Vec<Step>) -> bool {
    match *part {
        Part::Lines(lines) => are_put(alloc, lines, steps),
        Part::Repeated(times, lines) => are_repeated(alloc, times, lines, steps),
        Part::Frames(first, end, parties) => are_frames_put(first..end, parties, steps),
        Part::Walk(legs) => are_legs_put(alloc, legs, steps),
        Part::ForNobody => is_empty_frame_put(alloc, steps),
    }
}

fn are_parts_put(alloc: Global, parts: &[Part<'_>], steps: &mut Vec<Step>) -> bool {
    for part in parts {
        if !is_part_put(alloc, part, steps) {
            return false;
        }
    }
    true
}

fn holds(alloc: Global, report: &Report, check: &Check<'_>) -> bool {
    match *check {
        Check::Entries(count) => report.trace.len() == count,
        Check::Sent(kind, count) => count_of(report, None, kind) == count,
        Check::SentBy(party, kind, count) => count_of(report, Some(party), kind) == count,
        Check::Senders(parties) => senders_are(report, parties),
        Check::Texts(cut, spare, texts) => texts_are(report, cut, spare, texts),
        Check::Last(party, start, text) => sends_last(report, party, start, text),
        Check::Execute(replicas, batches) => execute(report, replicas, batches),
        Check::ExecutesAt(rows) => executes_at(report, rows),
        Check::Installs(number) => installs(report, number),
        Check::Accepts(rows) => accepts(alloc, report, rows),
        Check::AcceptedAt(positions) => are_accepted_at(report, positions),
        Check::Accepted(count) => report.accepted.len() == count,
        Check::DoneAndRead(clients, row) => done_and_read(alloc, report, clients, row),
        Check::Points(rows) => has_points(alloc, report, rows),
        Check::PointCount(count) => report.points.len() == count,
        Check::Got(rows) => are_got(report, rows),
        Check::NobodyStops => report.stopped.is_empty(),
    }
}

fn all_hold(alloc: Global, report: &Report, checks: &[Check<'_>]) -> bool {
    for check in checks {
        if !holds(alloc, report, check) {
            return false;
        }
    }
    true
}

fn is_right(alloc: Global, row: &Run<'_>, ended: &Result<Report, RunFault>) -> bool {
    match ended {
        Ok(report) => row.refused.is_none() && all_hold(alloc, report, row.checks),
        Err(RunFault::BadSchedule { step, before }) => {
            row.refused == Some(*step) && all_hold(alloc, before, row.checks)
        }
        Err(RunFault::NoMemory) => false,
    }
}

fn config_comes_out(alloc: Global, row: &Run<'_>, config: &Config, steps: &[Step]) -> bool {
    let ended = run(alloc, config, steps);
    is_right(alloc, row, &ended)
}

/// Whether the run of these steps, which stand in place of its own, comes out so.
pub fn steps_come_out(alloc: Global, row: &Run<'_>, steps: &[Step]) -> bool {
    match config_of(alloc, &row.world) {
        Some(config) => config_comes_out(alloc, row, &config, steps),
        None => false,
    }
}

/// Whether the run comes out so.
pub fn comes_out(alloc: Global, row: &Run<'_>) -> bool {
    let mut steps = Vec::new(alloc);
    let is_right = are_parts_put(alloc, row.parts, &mut steps)
        && steps_come_out(alloc, row, steps.as_slice());
    drop(steps);
    is_right
}

/// The first run that comes out otherwise.
fn first_wrong(alloc: Global, rows: &[Run<'_>]) -> Option<usize> {
    let mut number = 0usize;
    for row in rows {
        if !comes_out(alloc, row) {
            return Some(number);
        }
        number = number.saturating_add(1);
    }
    None
}

/// Each run of the table comes out so: a test that fails names the first that doesn't. The assertion stands here and
/// not in each test, since each costs a proof.
pub fn come_out<R: Abort>(rt: &R, alloc: Global, rows: &[Run<'_>]) {
    assert_eq!(rt; first_wrong(alloc, rows), None);
}
