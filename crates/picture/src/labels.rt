//! Texts that stand in the picture.

use crate::escaping::escape;
use events::Entry;
use points::Point;
use std::alloc::{AllocError, Global};
use std::fmt::Write;
use terms::NoMemory;
use trace_text::write_entry;
use tuple_text::write_answer;

/// Appends the text that is shown at the pointer: the position and the line of the entry.
pub(crate) fn put_title(
    alloc: Global,
    position: u64,
    entry: &Entry,
    svg: &mut String,
) -> Result<(), NoMemory> {
    write!(svg, "<title>{position} ")?;
    put_entry(alloc, entry, svg)?;
    Ok(write!(svg, "</title>")?)
}

/// The same of a delivery whose bytes count for nothing.
pub(crate) fn put_dropped_title(
    alloc: Global,
    position: u64,
    entry: &Entry,
    svg: &mut String,
) -> Result<(), NoMemory> {
    write!(svg, "<title>{position} dropped: ")?;
    put_entry(alloc, entry, svg)?;
    Ok(write!(svg, "</title>")?)
}

fn put_entry(alloc: Global, entry: &Entry, svg: &mut String) -> Result<(), NoMemory> {
    let mut line = Vec::new(alloc);
    write_entry(alloc, entry, &mut line)?;
    put_text(alloc, line.as_slice(), svg)
}

/// Appends the text that is shown at the pointer: the line of a point in the report.
pub(crate) fn put_point_title(
    alloc: Global,
    point: &Point,
    svg: &mut String,
) -> Result<(), NoMemory> {
    let (position, client, time) = (point.position, point.client.number, point.timestamp.0);
    let mut answer = Vec::new(alloc);
    write_answer(&point.answer, &mut answer)?;
    write!(svg, "<title>point {position} client {client} time {time} ")?;
    put_text(alloc, answer.as_slice(), svg)?;
    Ok(write!(svg, "</title>")?)
}

/// Appends at most so many characters, and an ellipsis if there are more.
pub(crate) fn put_label(
    alloc: Global,
    bytes: &[u8],
    most: usize,
    svg: &mut String,
) -> Result<(), NoMemory> {
    let text = String::from_utf8_lossy(alloc, bytes)?;
    let label = shortened(alloc, text.as_str(), most)?;
    escape(label.as_str(), svg)
}

fn put_text(alloc: Global, bytes: &[u8], svg: &mut String) -> Result<(), NoMemory> {
    let text = String::from_utf8_lossy(alloc, bytes)?;
    escape(text.as_str(), svg)
}

fn shortened(alloc: Global, text: &str, most: usize) -> Result<String, AllocError> {
    let mut label = String::new(alloc);
    for (count, character) in text.chars().enumerate() {
        if count == most {
            label.push('…')?;
            return Ok(label);
        }
        label.push(character)?;
    }
    Ok(label)
}
