//! Four replicas, of which one may be faulty, and two clients: their configurations, and events of theirs.

ghost use Rattle.std.specs.Prelude.{◌≡◌, ◌∷◌, [], map, IfOk};
ghost use Rattle.terms.specs.Parties.{client_party, party_number};
ghost use Rattle.tuple_codec.specs.OperationView.{operation_of};
ghost use Rattle.protocol.specs.System.Configuration.{members};
ghost use Rattle.protocol.specs.System.Trace.Entry.{Got, Tick};
ghost use Rattle.journal_tests.specs.Calls.{AsksFirst, IsFirstCall, first_op};

use authenticator::{Ring, deal};
use events::{Config, Entry, EntryKind, SharedBytes};
use journal::{AppendFault, Journal, Naming, Opened, Share};
use std::alloc::Global;
use std::sync::Arc;
use std::test::Fail;
use terms::{ClientId, Mode, NoMemory, Party, ReplicaId, Timestamp};
use test_bytes::seed;
use tuple_codec::Op;
use tuple_tree::Tuple;
use wire::{Body, Message, Request};

/// The configuration in which the clients of these numbers are faulty.
pub fn new_config(alloc: Global, faulty_clients: Vec<u16>) -> Result<Config, Fail>
    ensures { IfOk result (λ config. config.faults ≡ 1) }
{
    Ok(Config::new(1, 2, seed(), 4, Vec::new(alloc), faulty_clients)?)
}

/// The share of the party of this number.
pub fn take_share<N: Naming>(shares: Vec<Share<N>>, number: u16) -> Option<Share<N>> {
    let mut found = None;
    for share in shares {
        if share.party().number() == number {
            found = Some(share);
        }
    }
    found
}

// Owned values are dropped by a call, here and where the two are used: a drop at a function's end takes them apart.
fn with_share<N: Naming>(
    journal: Journal<N>,
    shares: Vec<Share<N>>,
    number: u16,
) -> Result<(Journal<N>, Share<N>), Fail> {
    match take_share(shares, number) {
        Some(share) => Ok((journal, share)),
        None => {
            drop(journal);
            Err(Fail::new("no share"))
        }
    }
}

/// A journal of this limit, and the share of the party of this number. Who owns both hands them on, since each further
/// way out of a function drops both.
pub fn begun<N: Naming>(
    alloc: Global,
    config: &Config,
    limit: u32,
    number: u16,
) -> Result<(Journal<N>, Share<N>), Fail>
    requires config { config.now ≡ N.config }
{
    let (journal, shares, orders) = Journal::<N>::new(alloc, config, limit)?;
    drop(orders);
    with_share(journal, shares, number)
}

/// The same of one that is tied.
pub fn begun_tied<N: Naming>(
    alloc: Global,
    opened: Opened,
    config: &Config,
    limit: u32,
    number: u16,
) -> Result<(Journal<N>, Share<N>), Fail>
    requires config { config.now ≡ N.config }
    requires book { opened ≡ N.book }
{
    let (journal, shares, orders) = Journal::<N>::tied(alloc, opened, config, limit)?;
    drop(orders);
    with_share(journal, shares, number)
}

pub fn tick_entries(alloc: Global, party: Party) -> Result<Vec<Entry>, NoMemory>
    ensures { IfOk result (λ entries. entries.items ≡ Tick (party_number party) ∷ []) }
{
    let mut entries = Vec::new(alloc);
    entries.push(Entry::new(EntryKind::Tick(party)))?;
    Ok(entries)
}

/// Whether the entries were taken, or why not. Out of memory is no answer, and is handed on.
pub fn answer_of(taken: Result<(), AppendFault>) -> Result<Result<(), AppendFault>, NoMemory> {
    match taken {
        Err(AppendFault::NoMemory) => Err(NoMemory),
        answer => Ok(answer),
    }
}

/// Time goes by at the share's party.
pub fn tick<N: Naming>(
    alloc: Global,
    journal: &mut Journal<N>,
    share: &mut Share<N>,
) -> Result<Result<(), AppendFault>, NoMemory> {
    let party = share.party();
    share.note_right();
    answer_of(journal.append(share, None, tick_entries(alloc, party)?))
}

fn got_entries(alloc: Global, party: Party, bytes: &[u8]) -> Result<Vec<Entry>, NoMemory>
    ensures { IfOk result (λ entries. entries.items ≡ Got (party_number party) bytes.now ∷ []) }
{
    let copy = Vec::from_slice(alloc, bytes)?;
    let bytes = SharedBytes::new(copy)?;
    let mut entries = Vec::new(alloc);
    entries.push(Entry::new(EntryKind::Got(party, bytes)))?;
    Ok(entries)
}

/// The share's party gets the bytes, which were sent at that position.
pub fn get<N: Naming>(
    alloc: Global,
    journal: &mut Journal<N>,
    share: &mut Share<N>,
    from: Option<u64>,
    bytes: &[u8],
) -> Result<Result<(), AppendFault>, NoMemory> {
    let party = share.party();
    share.note_right();
    answer_of(journal.append(share, from, got_entries(alloc, party, bytes)?))
}

fn all_replicas() -> [Party; 4]
    ensures { map party_number result ≡ 0 ∷ 1 ∷ 2 ∷ 3 ∷ [] }
{
    [
        Party::Replica(ReplicaId(0)),
        Party::Replica(ReplicaId(1)),
        Party::Replica(ReplicaId(2)),
        Party::Replica(ReplicaId(3)),
    ]
}

// out ()
fn new_op(alloc: Global) -> Op<Global>
    ensures { operation_of result ≡ first_op }
{
    Op::Out(Tuple::new_in(alloc))
}

// The client's own keys.
fn own_ring(alloc: Global, config: &Config, client: ClientId) -> Result<Ring, NoMemory>
    ensures { IfOk result (λ ring. ring.keys ≡ (members config.now (client_party client.number)).keys) }
{
    let (faults, clients) = (config.faults(), config.clients());
    let keys = deal(alloc, config.seed(), faults, clients, Party::Client(client))?;
    Ring::of_party(alloc, faults, clients, keys)
}

/// The frame in which a client asks for its first operation, `out ()`, sealed for all four replicas.
pub fn first_frame(alloc: Global, config: &Config, client: ClientId) -> Result<Vec<u8>, Fail>
    requires faults { config.now.faults ≡ 1 }
    ensures { IfOk result (λ frame. AsksFirst config.now client.number frame.items) }
{
    let mut ring = own_ring(alloc, config, client)?;
    let body = Body {
        sender: Party::Client(client),
        message: Message::Request(Request {
            timestamp: Timestamp(1),
            mode: Mode::Ordered,
            op: new_op(alloc),
        }),
    };
    Ok(ring.seal(alloc, &body, &all_replicas())?)
}

fn call_entries(alloc: Global, config: &Config, client: ClientId) -> Result<Vec<Entry>, Fail>
    requires faults { config.now.faults ≡ 1 }
    ensures { IfOk result (λ entries. IsFirstCall config.now client.number entries.items) }
{
    let text = first_frame(alloc, config, client)?;
    let frame = SharedBytes::new(text)?;
    let op = Arc::new(alloc, new_op(alloc))?;
    let mut entries = Vec::new(alloc);
    entries.push(Entry::new(EntryKind::Invoke(client, Timestamp(1), op)))?;
    entries.push(Entry::new(EntryKind::Sent(Party::Client(client), frame)))?;
    Ok(entries)
}

/// A client that has done nothing makes its first call: two entries.
pub fn call<N: Naming>(
    alloc: Global,
    config: &Config,
    journal: &mut Journal<N>,
    share: &mut Share<N>,
) -> Result<Result<(), AppendFault>, Fail>
    requires config { config.now ≡ N.config }
    requires faults { config.now.faults ≡ 1 }
{
    let Party::Client(client) = share.party() else {
        return Err(Fail::new("no client"));
    };
    if !share.history().is_empty() {
        return Err(Fail::new("not the first call"));
    }
    let entries = call_entries(alloc, config, client)?;
    Ok(answer_of(journal.append(share, None, entries))?)
}
