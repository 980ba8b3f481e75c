//! A client that is served by the keys of its file.

ghost use Rattle.std.specs.Prelude.{◌≡◌, ◌+◌, ◌≤◌, ◌^◌, ℕ, IfOk};
ghost use Rattle.terms.specs.Parties.{client_party};
ghost use Rattle.party_keys.specs.PartyData.{PartyData, IsPartyData};
ghost use Rattle.client_process.specs.Endings.{scene_of};
ghost use Rattle.client_command.specs.declared.fault.ClientFault.TheVariants as faults;
ghost use Rattle.client_command.specs.Serving.{BeginsAs, BeginsByKeys, EndsAs};

use crate::fault::ClientFault;
use client_cert::Client;
use client_process::converse;
use party_keys::PartyKeys;
use std::alloc::Global;
use std::io::{Read, Write};
use terms::{ClientId, FIRST_CLIENT, NoMemory, Party, Timestamp};

/// The greatest timestamp of a client.
pub const LAST_TIMESTAMP: u64 = 1 << 62;

/// The client that has these keys, before its first call. Its life begins above the timestamp, which has to be none
/// below one of its earlier lives. The keys of a replica are refused.
///
/// # Errors
///
/// The first that applies: [`ClientFault::Replica`] for a replica's keys; [`ClientFault::Spent`] if no timestamp is
/// left above this one; and NoMemory if memory runs out.
pub fn begin_client(
    alloc: Global,
    keys: &PartyKeys,
    above: Timestamp,
) -> Result<Client, ClientFault>
    ensures { BeginsByKeys keys.now above.0 result }
{
    let me = match keys.party() {
        Party::Client(me) => me,
        Party::Replica(_) => return Err(no_client(keys)),
    };
    if above.0 >= LAST_TIMESTAMP {
        return Err(ClientFault::Spent { above: above.0 });
    }
    Ok(client_of(alloc, keys, me, above)?)
}

fn no_client(keys: &PartyKeys) -> ClientFault
    ensures { result ≡ faults.Replica keys.now.party (255 + keys.now.clients) }
{
    ClientFault::Replica {
        number: keys.party().number(),
        last_client: FIRST_CLIENT - 1 + keys.clients(),
    }
}

fn client_of(
    alloc: Global,
    keys: &PartyKeys,
    me: ClientId,
    above: Timestamp,
) -> Result<Client, NoMemory>
    requires own { keys.now.party ≡ client_party me.number }
    requires valid { IsPartyData keys.now }
    requires room { above.0 ≤ 2 ^ 62 }
    ensures { IfOk result (BeginsAs keys.now above.0) }
{
    let ring = keys.ring(alloc)?;
    let publics = keys.publics(alloc)?;
    Ok(Client::start_above(me, keys.faults(), ring, publics, above))
}

/// Serves the client: calls the operations of the script's lines, and writes a line of results for each. It talks to
/// the replicas by records.
///
/// # Errors
///
/// [`ClientFault::Converse`] if the process ended before the script did.
pub fn serve_client<L: Read + Drop, R: Read + Drop, F: Write, W: Write>(
    alloc: Global,
    client: Client,
    script: L,
    records: R,
    frames: &mut F,
    results: &mut W,
) -> Result<(), ClientFault>
    ensures { (k : PartyData) (above : ℕ) → BeginsAs k above client
        → EndsAs k above result (L.remaining script) (R.remaining records)
        (scene_of F.contents W.contents frames.old results.old)
        (scene_of F.contents W.contents frames.new results.new) }
{
    match converse(alloc, client, script, records, frames, results) {
        Ok(()) => Ok(()),
        Err(fault) => Err(ClientFault::Converse(fault)),
    }
}
