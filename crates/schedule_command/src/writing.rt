//! The text of a report.

ghost use Rattle.std.specs.Prelude.{◌≡◌, ◌++◌, [], ◌∷◌, length, map, flat_map, decimal, IfErr, OnOk};
ghost use Rattle.tuple_codec.specs.OperationView.{outcome_of};
ghost use Rattle.points.specs.PointView.{item_of};
ghost use Rattle.one_space.specs.Moments.{WritesAll};
ghost use Rattle.schedule_world.specs.Stages.{acceptance_of};
ghost use Rattle.schedule_command.specs.Texts.{accepted_line, answered, numbered_line, numbered_lines, point_line, report_lines};
ghost use Rattle.schedule_command.specs.Writing.{IsOutputFault, WritesOn};

use crate::fault::ScheduleFault;
use events::Entry;
use itoa::Buffer;
use schedule_world::{Acceptance, Point, Report};
use std::alloc::Global;
use std::io::Write;
use terms::{ClientId, NoMemory, Timestamp};
use trace_text::write_entry;
use tuple_codec::Answer;
use tuple_text::write_answer;

// Most bytes of text that are held back, apart from those of one line.
const HELD: usize = 8192;

/// Writes a line for each entry. The last ones may be held back.
pub(crate) fn write_trace<W: Write>(
    alloc: Global,
    trace: &[Entry],
    text: &mut Vec<u8>,
    writer: &mut W,
) -> Result<(), ScheduleFault>
    ensures on { WritesOn W.contents result writer.old writer.new text.old text.new (numbered_lines 0 trace.now) }
    ensures err { IfErr result IsOutputFault }
{
    for (position, entry) in trace.iter().enumerate() {
        write_numbered(alloc, position as u64, entry, text, writer)?;
    }
    Ok(())
}

// Adds the line of an entry, and writes the held text if there is much.
fn write_numbered<W: Write>(
    alloc: Global,
    position: u64,
    entry: &Entry,
    text: &mut Vec<u8>,
    writer: &mut W,
) -> Result<(), ScheduleFault>
    ensures on { WritesOn W.contents result writer.old writer.new text.old text.new
        (numbered_line position entry.now) }
    ensures err { IfErr result IsOutputFault }
{
    put_entry(alloc, position, entry, text)?;
    if text.len() < HELD {
        return Ok(());
    }
    write_out(text, writer)
}

fn put_entry(
    alloc: Global,
    position: u64,
    entry: &Entry,
    text: &mut Vec<u8>,
) -> Result<(), NoMemory>
    ensures { OnOk result (text.new.items ≡ text.old.items ++ numbered_line position entry.now) }
{
    put_number("", position, text)?;
    text.push(b' ')?;
    write_entry(alloc, entry, text)?;
    Ok(text.push(b'\n')?)
}

/// Adds the lines of the report.
pub(crate) fn put_report(report: &Report, text: &mut Vec<u8>) -> Result<(), NoMemory>
    ensures { OnOk result (text.new.items ≡ text.old.items
        ++ report_lines (map acceptance_of report.now.accepted.items) (map item_of report.now.points.items)
        (length report.now.trace.items)) }
{
    put_acceptances(report.accepted.as_slice(), text)?;
    put_points(report.points.as_slice(), text)?;
    put_number("trace ", report.trace.len() as u64, text)?;
    Ok(text.push(b'\n')?)
}

fn put_acceptances(accepted: &[Acceptance], text: &mut Vec<u8>) -> Result<(), NoMemory>
    ensures { OnOk result (text.new.items
        ≡ text.old.items ++ flat_map accepted_line (map acceptance_of accepted.now)) }
{
    for acceptance in accepted {
        put_acceptance(acceptance, text)?;
    }
    Ok(())
}

fn put_acceptance(acceptance: &Acceptance, text: &mut Vec<u8>) -> Result<(), NoMemory>
    ensures { OnOk result (text.new.items ≡ text.old.items ++ accepted_line (acceptance_of acceptance.now)) }
{
    put_number("accepted ", acceptance.position as u64, text)?;
    put_answered(
        acceptance.client,
        acceptance.timestamp,
        &acceptance.answer,
        text,
    )
}

fn put_points(points: &[Point], text: &mut Vec<u8>) -> Result<(), NoMemory>
    ensures { OnOk result (text.new.items ≡ text.old.items ++ flat_map point_line (map item_of points.now)) }
{
    for point in points {
        put_point(point, text)?;
    }
    Ok(())
}

fn put_point(point: &Point, text: &mut Vec<u8>) -> Result<(), NoMemory>
    ensures { OnOk result (text.new.items ≡ text.old.items ++ point_line (item_of point.now)) }
{
    put_number("point ", point.position as u64, text)?;
    put_answered(point.client, point.timestamp, &point.answer, text)
}

// The end of a line: a call and its answer.
fn put_answered(
    client: ClientId,
    timestamp: Timestamp,
    answer: &Answer<Global>,
    text: &mut Vec<u8>,
) -> Result<(), NoMemory>
    ensures { OnOk result (text.new.items
        ≡ text.old.items ++ answered client.number timestamp.0 (outcome_of answer.now)) }
{
    put_number(" client ", u64::from(client.number), text)?;
    put_number(" time ", timestamp.0, text)?;
    text.push(b' ')?;
    write_answer(answer, text)?;
    Ok(text.push(b'\n')?)
}

// Adds a word, and a number in decimal digits.
fn put_number(word: &str, number: u64, text: &mut Vec<u8>) -> Result<(), NoMemory>
    ensures { OnOk result (text.new.items ≡ text.old.items ++ (word.now ++ decimal number)) }
{
    let mut buffer = Buffer::new();
    text.extend_from_slice(word.as_bytes())?;
    Ok(text.extend_from_slice(buffer.format(number).as_bytes())?)
}

/// Writes the held text.
pub(crate) fn write_out<W: Write>(text: &mut Vec<u8>, writer: &mut W) -> Result<(), ScheduleFault>
    ensures written { WritesAll W.contents result writer.old writer.new text.old.items }
    ensures none { OnOk result (text.new.items ≡ []) }
    ensures err { IfErr result IsOutputFault }
{
    if let Err(error) = writer.write_all(text.as_slice()) {
        return Err(ScheduleFault::Write(error));
    }
    if let Err(error) = writer.flush() {
        return Err(ScheduleFault::Write(error));
    }
    text.clear();
    Ok(())
}
