//! The notes of a scan on each client.

ghost use Rattle.std.specs.Prelude.{◌≡◌, option_map, OnOk};
ghost use Rattle.points.specs.Scanning.{IsClientIn, IsClientOf, NotesEntry, scan_after_entry, scan_at, scan_data};
ghost use Rattle.terms.specs.Parties.{party_number};

use events::{Entry, EntryKind};
use std::alloc::Global;
use std::collections::BTreeMap;
use terms::{ClientId, NoMemory, Party, Timestamp};
use tuple_codec::Op;

/// A call that is not answered yet.
#[derive(Clone, Copy, Drop)]
pub(crate) struct OpenCall<'a> {
    pub(crate) timestamp: Timestamp,
    pub(crate) op: &'a Op<Global>,
}

/// The notes on a client: its open call, the position of its last invocation, else 0, and the bytes that its last entry
/// brought.
#[derive(Clone, Copy, Drop)]
pub(crate) struct ClientScan<'a> {
    pub(crate) call: Option<OpenCall<'a>>,
    pub(crate) invoked: usize,
    pub(crate) got: Option<&'a [u8]>,
}

/// Scans by the clients' numbers.
pub(crate) type ClientScans<'a> = BTreeMap<u16, ClientScan<'a>>;

/// The scan of a client.
pub(crate) fn scan_of<'a>(scans: &ClientScans<'a>, client: ClientId) -> ClientScan<'a>
    ensures { scan_data result ≡ scan_at scans.now.entries client.number }
{
    match scans.get(&client.number) {
        Some(scan) => *scan,
        None => ClientScan {
            call: None,
            invoked: 0,
            got: None,
        },
    }
}

/// Notes an entry, which stands at this position, in its client's scan.
pub(crate) fn note<'a>(
    scans: &mut ClientScans<'a>,
    position: usize,
    entry: &'a Entry,
) -> Result<(), NoMemory>
    ensures { OnOk result (NotesEntry position entry.now scans.old.entries scans.new.entries) }
{
    let Some(client) = client_of(entry) else {
        return Ok(());
    };
    let scan = scan_after(scan_of(scans, client), position, entry);
    match scans.insert(client.number, scan) {
        Ok(_) => Ok(()),
        Err(_) => Err(NoMemory),
    }
}

// The client of the entry, if it is a client's.
fn client_of(entry: &Entry) -> Option<ClientId>
    ensures { IsClientOf entry.now (option_map (λ client. client.number) result) }
{
    match entry.kind() {
        EntryKind::Invoke(client, _, _) => Some(*client),
        EntryKind::Accepted(client, _, _) => Some(*client),
        EntryKind::Got(party, _) => client_in(*party),
        EntryKind::Tick(party) => client_in(*party),
        EntryKind::Sent(party, _) => client_in(*party),
        EntryKind::Executed(replica, _, _) => client_in(Party::Replica(*replica)),
        EntryKind::Installed(replica, _, _) => client_in(Party::Replica(*replica)),
    }
}

fn client_in(party: Party) -> Option<ClientId>
    ensures { IsClientIn (party_number party) (option_map (λ client. client.number) result) }
{
    match party {
        Party::Client(client) => Some(client),
        Party::Replica(_) => None,
    }
}

// The scan after an entry of its client.
fn scan_after<'a>(scan: ClientScan<'a>, position: usize, entry: &'a Entry) -> ClientScan<'a>
    ensures { scan_data result ≡ scan_after_entry position entry.now (scan_data scan.entry) }
{
    match entry.kind() {
        EntryKind::Invoke(_, timestamp, op) => ClientScan {
            call: Some(OpenCall {
                timestamp: *timestamp,
                op,
            }),
            invoked: position,
            got: None,
        },
        EntryKind::Accepted(_, _, _) => ClientScan {
            call: None,
            invoked: scan.invoked,
            got: None,
        },
        EntryKind::Got(_, bytes) => ClientScan {
            call: scan.call,
            invoked: scan.invoked,
            got: Some(bytes.as_slice()),
        },
        _ => ClientScan {
            call: scan.call,
            invoked: scan.invoked,
            got: None,
        },
    }
}
