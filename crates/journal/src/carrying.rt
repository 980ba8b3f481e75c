//! Whether received bytes were sent before.

ghost use Rattle.std.specs.Prelude.{◌≡◌, ◌↔◌, IfOk, IsTrue};
ghost use Rattle.protocol.specs.System.Configuration.{is_correct};
ghost use Rattle.protocol.specs.System.Schedule.{is_party};
ghost use Rattle.events.specs.EntryView.{entry_of_kind};
ghost use Rattle.journal.specs.Carrying.{ComesFrom, IsCarriedTo, IsSentAt, IsSentFrom, EntrySendsBytes, is_exempt, is_faulty};
ghost use Rattle.journal.specs.Comparing.{AreFaulty};

use crate::entries::are_same_bytes;
use crate::naming::Naming;
use events::{Config, Entry, EntryKind};
use std::alloc::Global;
use std::marker::PhantomData;
use terms::{FIRST_CLIENT, NoMemory};
use wire::judge;

/// The parties that the configuration names as faulty.
#[derive(Drop)]
pub(crate) struct Faulty<N: Naming> {
    // A mark for each party, by its number.
    marks: Vec<bool>,
    naming: PhantomData<N>,
    ghost right: { AreFaulty N.config marks.items },
}

impl<N: Naming> Faulty<N> {
    pub(crate) fn new(alloc: Global, config: &Config) -> Result<Faulty<N>, NoMemory>
        requires config { config.now ≡ N.config }
    {
        Ok(Faulty {
            marks: faulty_marks(alloc, config)?,
            naming: PhantomData,
        })
    }

    // Whether the configuration names the party of this number as faulty.
    fn names(&self, party: u16) -> bool
        ensures { result ≡ is_faulty N.config party }
    {
        match self.marks.get(usize::from(party)) {
            Some(mark) => *mark,
            None => false,
        }
    }

    // Whether the bytes are no frame, or their body names a faulty sender.
    fn exempts(&self, bytes: &[u8]) -> bool
        ensures { result ≡ is_exempt N.config bytes.now }
    {
        match judge(bytes) {
            Ok(header) => self.names(header.sender.number()),
            Err(_) => true,
        }
    }

    /// Whether the bytes that the event received were sent at that position of the trace, or may come from anywhere.
    pub(crate) fn let_come(&self, trace: &[Entry], from: Option<u64>, event: &[Entry]) -> bool
        ensures { IsTrue result ↔ IsCarriedTo N.config trace.now from event.now }
    {
        let [input, ..] = event else {
            return true;
        };
        self.lets_in(trace, from, input.kind())
    }

    fn lets_in(&self, trace: &[Entry], from: Option<u64>, input: &EntryKind) -> bool
        ensures { IsTrue result ↔ ComesFrom N.config trace.now from (entry_of_kind input.now) }
    {
        match input {
            EntryKind::Got(_, bytes) => {
                is_sent_from(trace, from, bytes.as_slice()) || self.exempts(bytes.as_slice())
            }
            _ => true,
        }
    }
}

fn faulty_marks(alloc: Global, config: &Config) -> Result<Vec<bool>, NoMemory>
    ensures { IfOk result (λ marks. AreFaulty config.now marks.items) }
{
    let mut marks = Vec::new(alloc);
    for party in 0..FIRST_CLIENT + config.clients() {
        marks.push(is_faulty(config, party))?;
    }
    Ok(marks)
}

fn is_faulty(config: &Config, party: u16) -> bool
    ensures { result ≡ is_faulty config.now party }
{
    is_party(config, party) && !is_correct(config, party)
}

fn is_party(config: &Config, party: u16) -> bool
    ensures { result ≡ is_party config.now party }
{
    party < u16::from(config.replicas())
        || party >= FIRST_CLIENT && party < FIRST_CLIENT + config.clients()
}

/// Whether the configuration has a party of this number and doesn't name it as faulty.
pub(crate) fn is_correct(config: &Config, party: u16) -> bool
    ensures { result ≡ is_correct config.now party }
{
    config.is_correct_replica(party) || config.is_correct_client(party)
}

fn is_sent_from(trace: &[Entry], from: Option<u64>, bytes: &[u8]) -> bool
    ensures { IsTrue result ↔ IsSentFrom trace.now from bytes.now }
{
    match from {
        Some(at) => is_sent_at(trace, at as usize, bytes),
        None => false,
    }
}

fn is_sent_at(trace: &[Entry], at: usize, bytes: &[u8]) -> bool
    ensures { IsTrue result ↔ IsSentAt trace.now at bytes.now }
{
    match trace.get(at) {
        Some(entry) => sends(entry.kind(), bytes),
        None => false,
    }
}

fn sends(kind: &EntryKind, bytes: &[u8]) -> bool
    ensures { IsTrue result ↔ EntrySendsBytes bytes.now (entry_of_kind kind.now) }
{
    match kind {
        EntryKind::Sent(_, sent) => are_same_bytes(sent.as_slice(), bytes),
        _ => false,
    }
}
