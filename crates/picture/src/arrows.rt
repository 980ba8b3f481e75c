//! Arrows from sendings to deliveries.

ghost use Rattle.std.specs.Prelude.{◌≡◌};
ghost use Rattle.picture.specs.Lanes.{party_at};

use crate::judge::Judge;
use crate::labels::{put_dropped_title, put_title};
use crate::lanes::{Lanes, Standing, standing_of};
use crate::messages::{MessageKind, Shown, read_shown};
use crate::run::{Rows, Run};
use crate::shapes::{Spot, put_cross};
use events::{Entry, EntryKind};
use std::alloc::Global;
use std::collections::HashMap;
use std::fmt::Write;
use terms::{NoMemory, Party};

// Where an arrow begins that begins at no lane.
const MARGIN: u64 = 48;

/// Where an arrow begins.
#[derive(Clone, Copy, Drop)]
pub(crate) enum Origin {
    /// At the last sending of the same bytes before.
    Sending { party: u16, position: u64 },
    /// Nobody sent the bytes; they name a faulty party as their sender.
    Faulty { party: u16 },
    Nowhere,
}

impl Origin {
    /// The party at whose lane the arrow begins.
    pub(crate) fn party(self) -> Option<u16>
        ensures { result ≡ party_at self }
    {
        match self {
            Origin::Sending { party, .. } | Origin::Faulty { party } => Some(party),
            Origin::Nowhere => None,
        }
    }
}

/// A delivery. Its bytes count for nothing if they are no frame that is authentic to its party.
#[derive(Clone, Copy, Drop)]
pub(crate) struct Arrow {
    position: u64,
    party: u16,
    kind: MessageKind,
    pub(crate) origin: Origin,
    is_dropped: bool,
}

/// The arrows to the deliveries among these rows. A sending is found by the frame's bytes, also above the rows.
pub(crate) fn arrows_of(alloc: Global, run: Run<'_>, rows: Rows) -> Result<Vec<Arrow>, NoMemory> {
    let mut sendings = HashMap::new(alloc);
    let mut judge = Judge::new(alloc, run.config)?;
    let mut arrows = Vec::new(alloc);
    for (position, entry) in run.trace.iter().enumerate() {
        let position = position as u64;
        match entry.kind() {
            EntryKind::Sent(party, bytes) => {
                let party = party.number();
                sendings.insert(bytes.as_slice(), Origin::Sending { party, position })?;
            }
            EntryKind::Got(party, bytes) if rows.has(position) => {
                let sending = sendings.get(&bytes.as_slice()).copied();
                let shown = read_shown(alloc, bytes.as_slice())?;
                arrows.push(Arrow {
                    position,
                    party: party.number(),
                    kind: shown.kind,
                    origin: sending.unwrap_or(source(run, &shown)),
                    is_dropped: !judge.is_authentic(bytes.as_slice(), *party),
                })?;
            }
            _ => {}
        }
    }
    Ok(arrows)
}

// Where the arrow of a frame begins that no party sent.
fn source(run: Run<'_>, shown: &Shown) -> Origin {
    match shown.sender {
        Some(party) if standing_of(run.config, party.number()) == Standing::Faulty => {
            Origin::Faulty {
                party: party.number(),
            }
        }
        _ => Origin::Nowhere,
    }
}

/// Draws the arrows, and a cross at the end of one whose bytes count for nothing.
pub(crate) fn put_arrows(
    alloc: Global,
    lanes: &Lanes,
    trace: &[Entry],
    arrows: &[Arrow],
    svg: &mut String,
) -> Result<(), NoMemory> {
    writeln!(svg, "<g class=\"arrows\">")?;
    for arrow in arrows {
        if let Some(entry) = trace.get(arrow.position as usize) {
            put_arrow(alloc, lanes, entry, *arrow, svg)?;
        }
    }
    Ok(writeln!(svg, "</g>")?)
}

fn put_arrow(
    alloc: Global,
    lanes: &Lanes,
    entry: &Entry,
    arrow: Arrow,
    svg: &mut String,
) -> Result<(), NoMemory> {
    let (class, line) = line_of(lanes, arrow);
    put_line(arrow.kind, class, line, svg)?;
    put_title(alloc, arrow.position, entry, svg)?;
    writeln!(svg, "</path>")?;
    if !arrow.is_dropped {
        return Ok(());
    }
    write!(svg, "<g>")?;
    put_dropped_title(alloc, arrow.position, entry, svg)?;
    put_cross(
        Spot {
            x: line.x,
            y: line.y,
        },
        svg,
    )?;
    Ok(writeln!(svg, "</g>")?)
}

// Where an arrow begins and ends.
#[derive(Clone, Copy, Drop)]
struct Line {
    from_x: u64,
    from_y: u64,
    x: u64,
    y: u64,
}

// The arrow of a frame that was sent above the rows, or never, begins a little higher than it ends.
fn line_of(lanes: &Lanes, arrow: Arrow) -> (&'static str, Line) {
    let (x, y) = (lanes.x(arrow.party), lanes.y(arrow.position));
    let (class, from_x, from_y) = match arrow.origin {
        Origin::Sending { party, position } if lanes.has_row(position) => {
            ("", lanes.x(party), lanes.y(position))
        }
        Origin::Sending { party, .. } => (" before", lanes.x(party), y.saturating_sub(6)),
        Origin::Faulty { party } => (" fed", lanes.x(party), y.saturating_sub(6)),
        Origin::Nowhere => (" fed", MARGIN, y.saturating_sub(6)),
    };
    (
        class,
        Line {
            from_x,
            from_y,
            x,
            y,
        },
    )
}

// Opens the element of an arrow. It is a curve if it ends on its own lane.
fn put_line(kind: MessageKind, class: &str, line: Line, svg: &mut String) -> Result<(), NoMemory> {
    let name = kind.name();
    let Line {
        from_x,
        from_y,
        x,
        y,
    } = line;
    write!(svg, "<path class=\"{name}{class}\" d=\"M{from_x} {from_y}")?;
    if from_x == x {
        let out = x.saturating_add(28);
        Ok(write!(svg, "C{out} {from_y} {out} {y} {x} {y}\">")?)
    } else {
        Ok(write!(svg, "L{x} {y}\">")?)
    }
}
