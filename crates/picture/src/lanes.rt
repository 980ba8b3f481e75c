//! The lanes of the parties, and the places of all parts on the page.

ghost use Rattle.std.specs.Prelude.{◌≡◌, OnOk, IfOk};
ghost use Rattle.terms.specs.Parties.{party_number};
ghost use Rattle.protocol.specs.System.Trace.{party_of};
ghost use Rattle.events.specs.EntryView.{entry_of_kind};
ghost use Rattle.picture.specs.Lanes.{AddsOnly, HasArrow, HasEntry, HasPoint, TakePart};

use crate::arrows::Arrow;
use crate::run::{Rows, Run};
use events::{Config, Entry, EntryKind};
use points::Point;
use std::alloc::{AllocError, Global};
use std::fmt::{self, Write};
use terms::{FIRST_CLIENT, NoMemory, Party};

// From the left edge to the first lane, from a lane to the next, and from the last one to the right edge. Right of
// the last lane is room for the answers of clients.
const LEFT: u64 = 96;

const LANE: u64 = 150;

const RIGHT: u64 = 240;

// The legend has this width.
const LEAST_WIDTH: u64 = 900;

// The height of an entry's row, and the heights above the first row and below the last.
const ROW: u64 = 14;

const ABOVE: u64 = 146;

const BELOW: u64 = 44;

// How far down the names are.
const HEADS: u64 = 116;

// No picture is wider or higher: programs that draw such files take no more than 32,767 pixels.
const MOST_PIXELS: u64 = 30_000;

/// Most entries of a picture.
pub const MAX_ROWS: u64 = (MOST_PIXELS - ABOVE - BELOW) / ROW;

/// Most lanes of a picture.
pub const MAX_LANES: u64 = (MOST_PIXELS - LEFT - RIGHT) / LANE + 1;

/// Whether the configuration has the party, and as faulty.
#[derive(Clone, Copy, Debug, PartialEq, Eq, Drop)]
pub(crate) enum Standing {
    Correct,
    Faulty,
    Unknown,
}

/// A lane for each party that takes part, by their numbers: replicas, then clients. A party takes part if an entry in
/// the rows is its own, if an arrow begins at it, or if an operation of it acts there.
#[derive(Drop)]
pub(crate) struct Lanes {
    parties: Vec<u16>,
    standings: Vec<Standing>,
    rows: Rows,
}

impl Lanes {
    pub(crate) fn of(
        alloc: Global,
        run: Run<'_>,
        rows: Rows,
        arrows: &[Arrow],
    ) -> Result<Lanes, AllocError>
        ensures { IfOk result (λ lanes. TakePart rows run.entry.trace.now arrows.now
            run.entry.points.now lanes.parties.items) }
    {
        let numbers = numbers(alloc, run, rows, arrows)?;
        let mut parties = Vec::new(alloc);
        let mut standings = Vec::new(alloc);
        for number in numbers.as_slice() {
            if parties.last() != Some(number) {
                parties.push(*number)?;
                standings.push(standing_of(run.config, *number))?;
            }
        }
        Ok(Lanes {
            parties,
            standings,
            rows,
        })
    }

    pub(crate) fn parties(&self) -> &[u16] {
        self.parties.as_slice()
    }

    pub(crate) fn standing(&self, party: u16) -> Standing {
        match self.parties.as_slice().binary_search(&party) {
            Ok(place) => self
                .standings
                .get(place)
                .copied()
                .unwrap_or(Standing::Unknown),
            Err(_) => Standing::Unknown,
        }
    }

    /// How far to the right a party's lane is.
    pub(crate) fn x(&self, party: u16) -> u64 {
        match self.parties.as_slice().binary_search(&party) {
            Ok(place) => after(LEFT, place as u64, LANE),
            Err(_) => LEFT,
        }
    }

    /// How far down the row of an entry is.
    pub(crate) fn y(&self, position: u64) -> u64 {
        after(ABOVE, position.saturating_sub(self.rows.first), ROW)
    }

    /// Whether the entry at this position is drawn.
    pub(crate) fn has_row(&self, position: u64) -> bool {
        self.rows.has(position)
    }

    /// Whether no lane is to the right of a party's.
    pub(crate) fn is_last(&self, party: u16) -> bool {
        self.parties.last() == Some(&party)
    }

    pub(crate) fn rows(&self) -> Rows {
        self.rows
    }

    pub(crate) fn count(&self) -> u64 {
        self.parties.len() as u64
    }

    pub(crate) fn width(&self) -> u64 {
        after(LEFT + RIGHT, self.count().saturating_sub(1), LANE).max(LEAST_WIDTH)
    }

    pub(crate) fn height(&self) -> u64 {
        after(ABOVE + BELOW, self.rows.count(), ROW)
    }
}

fn after(start: u64, count: u64, step: u64) -> u64 {
    count.saturating_mul(step).saturating_add(start)
}

// The numbers of the parties, ascending, some of them several times.
fn numbers(
    alloc: Global,
    run: Run<'_>,
    rows: Rows,
    arrows: &[Arrow],
) -> Result<Vec<u16>, AllocError>
    ensures { IfOk result (λ numbers. TakePart rows run.entry.trace.now arrows.now
        run.entry.points.now numbers.items) }
{
    let mut numbers = Vec::new(alloc);
    add_entries(rows, run.trace, &mut numbers)?;
    add_arrows(arrows, &mut numbers)?;
    add_points(rows, run.points, &mut numbers)?;
    numbers.sort()?;
    Ok(numbers)
}

fn add_entries(rows: Rows, trace: &[Entry], numbers: &mut Vec<u16>) -> Result<(), AllocError>
    ensures { OnOk result (AddsOnly (HasEntry rows trace.now) numbers.old.items numbers.new.items) }
{
    for (position, entry) in trace.iter().enumerate() {
        if rows.has(position as u64) {
            numbers.push(party(entry.kind()).number())?;
        }
    }
    Ok(())
}

fn add_arrows(arrows: &[Arrow], numbers: &mut Vec<u16>) -> Result<(), AllocError>
    ensures { OnOk result (AddsOnly (HasArrow arrows.now) numbers.old.items numbers.new.items) }
{
    for arrow in arrows {
        if let Some(party) = arrow.origin.party() {
            numbers.push(party)?;
        }
    }
    Ok(())
}

fn add_points(rows: Rows, points: &[Point], numbers: &mut Vec<u16>) -> Result<(), AllocError>
    ensures { OnOk result (AddsOnly (HasPoint rows points.now) numbers.old.items numbers.new.items) }
{
    for point in points {
        if rows.has(point.position as u64) {
            numbers.push(Party::Client(point.client).number())?;
        }
    }
    Ok(())
}

/// The party at which an entry happened.
pub(crate) fn party(kind: &EntryKind) -> Party
    ensures { party_number result ≡ party_of (entry_of_kind kind.now) }
{
    match kind {
        EntryKind::Invoke(client, _, _) => Party::Client(*client),
        EntryKind::Got(party, _) => *party,
        EntryKind::Tick(party) => *party,
        EntryKind::Executed(replica, _, _) => Party::Replica(*replica),
        EntryKind::Installed(replica, _, _) => Party::Replica(*replica),
        EntryKind::Sent(party, _) => *party,
        EntryKind::Accepted(client, _, _) => Party::Client(*client),
    }
}

/// How a configuration has a party.
pub(crate) fn standing_of(config: &Config, number: u16) -> Standing {
    if config.is_correct_replica(number) || config.is_correct_client(number) {
        Standing::Correct
    } else if is_configured(config, number) {
        Standing::Faulty
    } else {
        Standing::Unknown
    }
}

fn is_configured(config: &Config, number: u16) -> bool {
    if number < FIRST_CLIENT {
        number < u16::from(config.replicas())
    } else {
        number - FIRST_CLIENT < config.clients()
    }
}

/// Draws a line for every tenth entry, and the lanes with the names of their parties.
pub(crate) fn put_lanes(lanes: &Lanes, svg: &mut String) -> Result<(), NoMemory> {
    put_tens(lanes, svg)?;
    writeln!(svg, "<g class=\"lanes\">")?;
    for number in lanes.parties() {
        put_lane(lanes, *number, svg)?;
    }
    Ok(writeln!(svg, "</g>")?)
}

fn put_tens(lanes: &Lanes, svg: &mut String) -> Result<(), NoMemory> {
    let right = lanes.width().saturating_sub(RIGHT - LANE);
    writeln!(svg, "<g class=\"tens\">")?;
    for ten in 0..lanes.rows().count().div_ceil(10) {
        let y = lanes.y(lanes.rows().first.saturating_add(ten.saturating_mul(10)));
        writeln!(svg, "<path d=\"M46 {y}H{right}\"/>")?;
    }
    Ok(writeln!(svg, "</g>")?)
}

// A lane is named at the top, at the foot, and small at every fiftieth entry.
fn put_lane(lanes: &Lanes, number: u16, svg: &mut String) -> Result<(), NoMemory> {
    let (x, class) = (lanes.x(number), class(lanes.standing(number)));
    let foot = lanes.height().saturating_sub(BELOW - 10);
    writeln!(svg, "<path class=\"{class}\" d=\"M{x} {HEADS}V{foot}\"/>")?;
    for fifty in 1..lanes.rows().count().div_ceil(50) {
        let position = lanes.rows().first.saturating_add(fifty.saturating_mul(50));
        put_small_name(x, lanes.y(position), number, svg)?;
    }
    put_name(x, HEADS, number, lanes.standing(number), svg)?;
    put_name(x, foot, number, lanes.standing(number), svg)
}

fn put_small_name(x: u64, y: u64, number: u16, svg: &mut String) -> Result<(), NoMemory> {
    let (left, base, name) = (x.saturating_sub(14), y.saturating_sub(3), Name(number));
    Ok(writeln!(
        svg,
        "<text class=\"small\" x=\"{left}\" y=\"{base}\">{name}</text>"
    )?)
}

fn put_name(
    x: u64,
    y: u64,
    number: u16,
    standing: Standing,
    svg: &mut String,
) -> Result<(), NoMemory> {
    let (left, top, base) = (
        x.saturating_sub(34),
        y.saturating_sub(9),
        y.saturating_add(4),
    );
    let (class, name, note) = (class(standing), Name(number), note(standing));
    write!(
        svg,
        "<rect class=\"{class}\" x=\"{left}\" y=\"{top}\" width=\"68\" height=\"18\" rx=\"4\"/>"
    )?;
    Ok(writeln!(
        svg,
        "<text class=\"{class}\" x=\"{x}\" y=\"{base}\">{name}{note}</text>"
    )?)
}

fn class(standing: Standing) -> &'static str {
    match standing {
        Standing::Correct => "good",
        Standing::Faulty => "bad",
        Standing::Unknown => "other",
    }
}

fn note(standing: Standing) -> &'static str {
    match standing {
        Standing::Correct => "",
        Standing::Faulty => " faulty",
        Standing::Unknown => " unknown",
    }
}

// Replica 0 is `r0`, client 0 is `c0`.
#[derive(Clone, Copy, Drop)]
struct Name(u16);

impl fmt::Display for Name {
    fn fmt<W: fmt::Write>(&self, f: &mut fmt::Formatter<W>) -> fmt::Result {
        let number = self.0;
        if number < FIRST_CLIENT {
            write!(f, "r{number}")
        } else {
            let client = number - FIRST_CLIENT;
            write!(f, "c{client}")
        }
    }
}
