//! The reads that clients accepted by read-only replies.

ghost use Rattle.std.specs.Prelude.{◌≡◌, ◌^◌, ◌==◌, IfOk, IsFalse, OnOk, option_map, reverse, slice_index};
ghost use Rattle.terms.specs.Parties.{client_party};
ghost use Rattle.tuple_codec.specs.OperationView.{outcome_of};
ghost use Rattle.wire_format.specs.Views.{body_data};
ghost use Rattle.signing.specs.AuthenticBody.{authentic};
ghost use Rattle.signing.specs.Publics.{knows};
ghost use Rattle.points.specs.Places.{position_in};
ghost use Rattle.points.specs.PointView.{placing_of};
ghost use Rattle.protocol.specs.System.Frames.{same_mode};
ghost use Rattle.points.specs.Scanning.{EndsNone, EntryEndsRead, answers, number_in, read_number, scan_data, read_by_scan, reads_by_scans, seed_holder};
ghost use Rattle.points.specs.Sorting.{AddsEnded, AreRankedAbove, HoldsReads};

use crate::places::Places;
use crate::point::{Placed, Point};
use crate::scans::{ClientScan, ClientScans, note, scan_of};
use crate::sorting::Reads;
use authenticator::Ring;
use events::{Config, Entry, EntryKind};
use signing::{AuthenticFrame, AuthenticationFault, PublicKeys, authenticate};
use std::alloc::Global;
use std::collections::BTreeMap;
use terms::{ClientId, Mode, NoMemory, Number, Party, Timestamp};
use tuple_codec::Answer;
use wire::{Body, Message, Reply};

/// The place of a reply's kind in its frame: behind four bytes of length, one of type, two of its sender, two of its
/// client and eight of its timestamp.
const KIND_PLACE: usize = 17;

/// The byte of the kind of reads.
const READ_KIND: u8 = 1;

/// The reads that clients accepted by read-only replies, in a trace whose oldest entry stands first.
pub(crate) fn find_reads(
    alloc: Global,
    config: &Config,
    places: &Places,
    trace: &[Entry],
) -> Result<Reads, NoMemory>
    ensures { IfOk result (HoldsReads (2 ^ 63) (reads_by_scans (seed_holder config.now)
        (position_in (reverse places.now.rises.items)) (reverse trace.now))) }
{
    // One ring with all keys of the seed serves all clients: it judges a reply as the client's own keys do.
    let mut ring = Ring::new(alloc, config.seed(), config.faults(), config.clients());
    let publics = PublicKeys::new(alloc, config.seed(), config.faults())?;
    let mut scans = BTreeMap::new(alloc);
    let mut reads = Reads::new(alloc);
    for (position, entry) in trace.iter().enumerate() {
        let rank = usize::MAX - position;
        add_ended(
            alloc, &mut ring, &publics, places, &scans, entry, rank, &mut reads,
        )?;
        note(&mut scans, position, entry)?;
    }
    Ok(reads)
}

// Adds the read that an entry ends, if it ends one, with a rank below those before.
fn add_ended(
    alloc: Global,
    ring: &mut Ring,
    publics: &PublicKeys,
    places: &Places,
    scans: &ClientScans<'_>,
    entry: &Entry,
    rank: usize,
    reads: &mut Reads,
) -> Result<(), NoMemory>
    requires ranked { AreRankedAbove rank reads.old.sorted.entries }
    ensures adds { OnOk result (AddsEnded (knows ring.old publics.now)
        (reverse places.now.rises.items) scans.now.entries entry.now rank reads.old reads.new) }
    ensures same { ring.new ≡ ring.old }
{
    // Few entries end a read. The others go by without the room that a read takes.
    if !may_end(entry) {
        return Ok(());
    }
    let read = read_ended(alloc, ring, publics, places, scans, entry)?;
    reads.add(rank, read)
}

// Whether an entry may end a read: only acceptances do.
fn may_end(entry: &Entry) -> bool
    ensures { IsFalse result → EndsNone entry.now }
{
    match entry.kind() {
        EntryKind::Accepted(_, _, _) => true,
        _ => false,
    }
}

// The read that an entry ends.
fn read_ended(
    alloc: Global,
    ring: &mut Ring,
    publics: &PublicKeys,
    places: &Places,
    scans: &ClientScans<'_>,
    entry: &Entry,
) -> Result<Option<Placed>, NoMemory>
    ensures read { IfOk result (λ read. EntryEndsRead (knows ring.old publics.now)
        (reverse places.now.rises.items) scans.now.entries entry.now (option_map placing_of read)) }
    ensures same { ring.new ≡ ring.old }
{
    match entry.kind() {
        EntryKind::Accepted(client, timestamp, answer) => {
            let scan = scan_of(scans, *client);
            read_at(
                alloc, ring, publics, places, *client, *timestamp, answer, scan,
            )
        }
        _ => Ok(None),
    }
}

// The read that an acceptance ends, by the client's scan.
fn read_at(
    alloc: Global,
    ring: &mut Ring,
    publics: &PublicKeys,
    places: &Places,
    client: ClientId,
    timestamp: Timestamp,
    answer: &Answer<Global>,
    scan: ClientScan<'_>,
) -> Result<Option<Placed>, NoMemory>
    ensures read { IfOk result (λ read. option_map placing_of read
        ≡ read_by_scan (knows ring.old publics.now) (position_in (reverse places.now.rises.items))
        (client_party client.number) timestamp.0 (outcome_of answer.now) (scan_data scan.entry)) }
    ensures same { ring.new ≡ ring.old }
{
    let Some(call) = scan.call else {
        return Ok(None);
    };
    let Some(bytes) = scan.got else {
        return Ok(None);
    };
    let Some(number) = read_number(alloc, ring, publics, client, timestamp, bytes)? else {
        return Ok(None);
    };
    let position = scan.invoked.max(places.position(number));
    let op = call.op.copy_in(alloc)?;
    let answer = answer.copy_in(alloc)?;
    Ok(Some(Placed {
        point: Point {
            client,
            timestamp: call.timestamp,
            op,
            answer,
            position,
        },
        number,
        mode: Mode::ReadOnly,
    }))
}

// The number of the read-only reply to the client's call of this timestamp, if the bytes are one.
fn read_number(
    alloc: Global,
    ring: &mut Ring,
    publics: &PublicKeys,
    client: ClientId,
    timestamp: Timestamp,
    bytes: &[u8],
) -> Result<Option<Number>, NoMemory>
    ensures number { IfOk result (λ number. option_map (λ n. n.0) number
        ≡ read_number (knows ring.old publics.now) (client_party client.number) timestamp.0 bytes.now) }
    ensures same { ring.new ≡ ring.old }
{
    if !has_read_kind(bytes) {
        return Ok(None);
    }
    match authenticate_body(alloc, ring, publics, client, bytes)? {
        None => Ok(None),
        Some(body) => Ok(number_in(body, client, timestamp)),
    }
}

// Whether the byte at which a reply has its kind is that of reads. Other replies are not opened.
fn has_read_kind(bytes: &[u8]) -> bool
    ensures { result ≡ slice_index bytes.now 17 == 1 }
{
    match bytes.get(KIND_PLACE) {
        Some(kind) => *kind == READ_KIND,
        None => false,
    }
}

// The body that the client receives from the bytes, if any.
fn authenticate_body(
    alloc: Global,
    ring: &mut Ring,
    publics: &PublicKeys,
    client: ClientId,
    bytes: &[u8],
) -> Result<Option<Body>, NoMemory>
    ensures authentic { IfOk result (λ body. authentic (knows ring.old publics.now)
        (client_party client.number) bytes.now ≡ option_map body_data body) }
    ensures same { ring.new ≡ ring.old }
{
    match authenticate(alloc, ring, publics, bytes, Party::Client(client)) {
        Ok(authentic) => {
            let AuthenticFrame { bytes: _, body } = authentic;
            Ok(Some(body))
        }
        Err(fault) => match fault {
            AuthenticationFault::NoMemory => Err(NoMemory),
            _ => Ok(None),
        },
    }
}

fn number_in(body: Body, client: ClientId, timestamp: Timestamp) -> Option<Number>
    ensures { option_map (λ n. n.0) result
        ≡ number_in (client_party client.number) timestamp.0 (body_data body) }
{
    let Body { sender: _, message } = body;
    match message {
        Message::Reply(reply) => answers(&reply, client, timestamp).then_some(reply.number),
        _ => None,
    }
}

// Whether it is a read-only reply to the client's call of this timestamp.
fn answers(reply: &Reply, client: ClientId, timestamp: Timestamp) -> bool
    ensures { result ≡ answers client.number timestamp.0 reply.now }
{
    reply.client.number == client.number
        && reply.timestamp.0 == timestamp.0
        && is_read_only(reply.kind)
}

fn is_read_only(mode: Mode) -> bool
    ensures { result ≡ same_mode mode Mode.ReadOnly }
{
    match mode {
        Mode::Ordered => false,
        Mode::ReadOnly => true,
    }
}
