//! The summary of a run.

use cluster_run::Parties;
use events::{Entry, EntryKind};
use journal::Naming;
use std::alloc::Global;
use std::fmt::{self, Display, Formatter};
use std::time::Duration;
use terms::{FIRST_CLIENT, NoMemory, Party};
use wire::{Message, SIGNATURE_LEN, WireFault, decode};

/// What happened in a run beside its answers.
#[derive(Drop)]
pub struct Summary {
    /// The views for which a new view was sent, ascending, after view 0.
    pub views: Vec<u64>,
    /// The greatest number whose batch a replica executed.
    pub number: u64,
    /// How many entries the trace has.
    pub entries: usize,
    /// How many entries the journal takes.
    pub limit: u32,
    /// The replicas that stopped, and then the clients.
    pub stopped: Vec<Party>,
    pub calls: usize,
    pub time: Duration,
}

impl Summary {
    /// The summary of a run of these parties, whose journal takes up to `limit` entries, with so many calls in this
    /// time.
    pub fn of<N: Naming>(
        alloc: Global,
        parties: &Parties<N>,
        limit: u32,
        calls: usize,
        time: Duration,
    ) -> Result<Summary, NoMemory> {
        let trace = parties.trace();
        Ok(Summary {
            views: views_in(alloc, trace)?,
            number: last_number(trace),
            entries: trace.len(),
            limit,
            stopped: Vec::from_slice(alloc, parties.stopped())?,
            calls,
            time,
        })
    }
}

fn views_in(alloc: Global, trace: &[Entry]) -> Result<Vec<u64>, NoMemory> {
    let mut views = Vec::new(alloc);
    for entry in trace {
        if let Some(view) = new_view_in(alloc, entry)? {
            if let Err(place) = views.binary_search(&view) {
                views.insert(place, view)?;
            }
        }
    }
    Ok(views)
}

// The view whose new view is sent in the entry.
fn new_view_in(alloc: Global, entry: &Entry) -> Result<Option<u64>, NoMemory> {
    let EntryKind::Sent(_, bytes) = entry.kind() else {
        return Ok(None);
    };
    // A new view is signed, and most other frames are shorter than a signature.
    if bytes.as_slice().len() <= SIGNATURE_LEN {
        return Ok(None);
    }
    match decode(alloc, bytes.as_slice()) {
        Ok(frame) => match &frame.body.message {
            Message::NewView(new_view) => Ok(Some(new_view.view.0)),
            _ => Ok(None),
        },
        Err(WireFault::NoMemory) => Err(NoMemory),
        Err(WireFault::Malformed | WireFault::TooLarge) => Ok(None),
    }
}

fn last_number(trace: &[Entry]) -> u64 {
    let mut last = 0;
    for entry in trace {
        if let EntryKind::Executed(_, number, _) = entry.kind() {
            last = last.max(number.0);
        }
    }
    last
}

impl Display for Summary {
    fn fmt<W: fmt::Write>(&self, f: &mut Formatter<W>) -> fmt::Result {
        write!(f, "views entered: 0")?;
        for view in self.views.as_slice() {
            write!(f, ", {view}")?;
        }
        let (number, entries, limit) = (self.number, self.entries, self.limit);
        write!(
            f,
            "\nnumbers executed: {number}\nentries used: {entries} of {limit}\nstopped:"
        )?;
        if self.stopped.is_empty() {
            write!(f, " none")?;
        }
        for party in self.stopped.as_slice() {
            put_party(*party, f)?;
        }
        put_pace(self.calls, self.time, f)
    }
}

fn put_party<W: fmt::Write>(party: Party, f: &mut Formatter<W>) -> fmt::Result {
    let number = party.number();
    if number < FIRST_CLIENT {
        write!(f, " r{number}")
    } else {
        let client = number - FIRST_CLIENT;
        write!(f, " c{client}")
    }
}

fn put_pace<W: fmt::Write>(calls: usize, time: Duration, f: &mut Formatter<W>) -> fmt::Result {
    let millis = time.as_millis();
    let (seconds, rest) = (millis / 1000, millis % 1000);
    let pace = calls as u128 * 1_000_000 / time.as_micros().max(1);
    write!(f, "\ntime: {seconds}.{rest:03} s, {pace} calls a second")
}
