//! The marks of a party's entries, on its lane.

use crate::labels::{put_label, put_title};
use crate::lanes::{Lanes, party};
use crate::messages::{MessageKind, read_shown};
use crate::shapes::{
    Spot, put_bar, put_check, put_circle, put_cross, put_dashes, put_diamond, put_dots, put_star,
    put_triangle,
};
use events::{Entry, EntryKind};
use std::alloc::Global;
use std::fmt::Write;
use terms::NoMemory;
use tuple_codec::{Answer, Op};
use tuple_text::{write_answer, write_op};

// Most characters of an operation or an answer: with another lane on the right, and with none.
const BETWEEN: usize = 20;

const BEHIND: usize = 36;

/// Draws the mark of each entry in the rows, except deliveries, at which arrows end.
pub(crate) fn put_marks(
    alloc: Global,
    lanes: &Lanes,
    trace: &[Entry],
    svg: &mut String,
) -> Result<(), NoMemory> {
    writeln!(svg, "<g class=\"marks\">")?;
    for (position, entry) in trace.iter().enumerate() {
        let position = position as u64;
        if lanes.has_row(position) && !matches!(entry.kind(), EntryKind::Got(..)) {
            put_mark(alloc, lanes, position, entry, svg)?;
        }
    }
    Ok(writeln!(svg, "</g>")?)
}

fn put_mark(
    alloc: Global,
    lanes: &Lanes,
    position: u64,
    entry: &Entry,
    svg: &mut String,
) -> Result<(), NoMemory> {
    write!(svg, "<g>")?;
    put_title(alloc, position, entry, svg)?;
    let number = party(entry.kind()).number();
    let spot = Spot {
        x: lanes.x(number),
        y: lanes.y(position),
    };
    let most = if lanes.is_last(number) {
        BEHIND
    } else {
        BETWEEN
    };
    put_sign(alloc, entry.kind(), spot, most, svg)?;
    Ok(writeln!(svg, "</g>")?)
}

fn put_sign(
    alloc: Global,
    kind: &EntryKind,
    spot: Spot,
    most: usize,
    svg: &mut String,
) -> Result<(), NoMemory> {
    match kind {
        EntryKind::Invoke(_, _, op) => put_call(alloc, op, spot, most, svg),
        EntryKind::Got(_, _) => Ok(()),
        EntryKind::Tick(_) => put_circle("tick", 3, spot, svg),
        EntryKind::Executed(_, number, _) => {
            put_circle("executed", 4, spot, svg)?;
            put_note("", number.0, 8, spot, svg)
        }
        EntryKind::Installed(_, number, _) => {
            put_diamond(spot, svg)?;
            put_note("", number.0, 10, spot, svg)
        }
        EntryKind::Sent(_, bytes) => put_sent(alloc, bytes.as_slice(), spot, svg),
        EntryKind::Accepted(_, _, answer) => put_accepted(alloc, answer, spot, most, svg),
    }
}

// A sending is a dot; that of a view change or a new view is a bar.
fn put_sent(alloc: Global, bytes: &[u8], spot: Spot, svg: &mut String) -> Result<(), NoMemory> {
    let shown = read_shown(alloc, bytes)?;
    match shown.kind {
        MessageKind::ViewChange => {
            put_bar("view-change", 11, spot, svg)?;
            put_note("view ", shown.view, 14, above(spot), svg)
        }
        MessageKind::NewView => {
            put_bar("new-view", 16, spot, svg)?;
            put_note("new view ", shown.view, 18, above(spot), svg)
        }
        kind => put_circle(kind.name(), 2, spot, svg),
    }
}

fn put_call(
    alloc: Global,
    op: &Op<Global>,
    spot: Spot,
    most: usize,
    svg: &mut String,
) -> Result<(), NoMemory> {
    let mut text = Vec::new(alloc);
    write_op(op, &mut text)?;
    put_triangle(spot, svg)?;
    put_said(alloc, "call", text.as_slice(), spot, most, svg)
}

fn put_accepted(
    alloc: Global,
    answer: &Answer<Global>,
    spot: Spot,
    most: usize,
    svg: &mut String,
) -> Result<(), NoMemory> {
    let mut text = Vec::new(alloc);
    write_answer(answer, &mut text)?;
    put_check(spot, svg)?;
    put_said(alloc, "answer", text.as_slice(), spot, most, svg)
}

// A text beside a mark, with at most so many characters.
fn put_said(
    alloc: Global,
    class: &str,
    text: &[u8],
    spot: Spot,
    most: usize,
    svg: &mut String,
) -> Result<(), NoMemory> {
    let (x, y) = (spot.x.saturating_add(10), spot.y.saturating_add(3));
    write!(svg, "<text class=\"{class}\" x=\"{x}\" y=\"{y}\">")?;
    put_label(alloc, text, most, svg)?;
    Ok(write!(svg, "</text>")?)
}

// A place at which the arrows from a bar don't cross a note.
fn above(spot: Spot) -> Spot {
    Spot {
        x: spot.x,
        y: spot.y.saturating_sub(5),
    }
}

// A number beside a mark, so far from the lane.
fn put_note(
    word: &str,
    number: u64,
    far: u64,
    spot: Spot,
    svg: &mut String,
) -> Result<(), NoMemory> {
    let (x, y) = (spot.x.saturating_add(far), spot.y.saturating_add(3));
    Ok(write!(svg, "<text x=\"{x}\" y=\"{y}\">{word}{number}</text>")?)
}

/// Appends the meanings of the marks, in two lines of the legend.
pub(crate) fn put_meanings(svg: &mut String) -> Result<(), NoMemory> {
    writeln!(svg, "<g class=\"marks\">")?;
    put_triangle(meaning(0), svg)?;
    put_check(meaning(1), svg)?;
    put_star(meaning(2), svg)?;
    put_circle("executed", 4, meaning(3), svg)?;
    put_diamond(meaning(4), svg)?;
    put_circle("tick", 3, meaning(5), svg)?;
    put_bar("view-change", 11, meaning(6), svg)?;
    put_bar("new-view", 16, meaning(7), svg)?;
    put_dashes(meaning(8), svg)?;
    put_dots(meaning(9), svg)?;
    put_cross(meaning(10), svg)?;
    put_words(svg)?;
    Ok(writeln!(svg, "</g>")?)
}

const MEANINGS: [&str; 11] = [
    "invoked",
    "accepted",
    "point",
    "executed",
    "installed",
    "tick",
    "view change",
    "new view",
    "not sent",
    "sent above",
    "dropped",
];

fn put_words(svg: &mut String) -> Result<(), NoMemory> {
    for (place, word) in MEANINGS.iter().enumerate() {
        let Spot { x, y } = meaning(place as u64);
        let (x, y) = (x.saturating_add(26), y.saturating_add(3));
        write!(svg, "<text x=\"{x}\" y=\"{y}\">{word}</text>")?;
    }
    Ok(())
}

// Six stand in a line, below the kinds of messages.
fn meaning(place: u64) -> Spot {
    Spot {
        x: (place % 6).saturating_mul(140).saturating_add(61),
        y: (place / 6).saturating_mul(18).saturating_add(60),
    }
}
