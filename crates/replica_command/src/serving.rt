//! A replica that is served by the keys of its file.

ghost use Rattle.std.specs.Prelude.{◌≡◌, ◌*◌, IfOk, IfSome};
ghost use Rattle.party_keys.specs.PartyData.{IsPartyData};
ghost use Rattle.replica_command.specs.declared.fault.ReplicaFault.TheVariants as faults;
ghost use Rattle.replica_command.specs.Serving.{BeginsAs, EndsByFile, EndsByKeys};

use crate::fault::ReplicaFault;
use keys_file::read_keys;
use party_keys::PartyKeys;
use replica::{Numbers, Replica};
use replica_process::serve;
use std::alloc::Global;
use std::io::{Read, Write};
use terms::{NoMemory, Party, ReplicaId};

/// Serves the replica whose file this is over the records of a reader, and writes records.
///
/// # Errors
///
/// Why no replica's keys were read, or why its process ended before its input did.
pub fn serve_file<F: Read + Drop, R: Read + Drop, W: Write>(
    alloc: Global,
    file: F,
    reader: R,
    writer: &mut W,
) -> Result<(), ReplicaFault>
    ensures { IfSome (F.remaining file) (λ text.
        EndsByFile text result (R.remaining reader) (W.contents writer.old) (W.contents writer.new)) }
{
    match read_keys(alloc, file) {
        Ok(keys) => serve_replica(alloc, keys, reader, writer),
        Err(fault) => Err(ReplicaFault::Keys(fault)),
    }
}

/// Serves the replica that has these keys over the records of a reader, and writes records. It gets timeouts only while
/// it is linked to 2f others. The keys of a client are refused.
///
/// # Errors
///
/// [`ReplicaFault::Client`] for a client's keys; NoMemory if memory runs out before the replica's first event; and
/// [`ReplicaFault::Serve`] if its process ended before its input did.
pub fn serve_replica<R: Read + Drop, W: Write>(
    alloc: Global,
    keys: PartyKeys,
    reader: R,
    writer: &mut W,
) -> Result<(), ReplicaFault>
    ensures { EndsByKeys keys result (R.remaining reader) (W.contents writer.old) (W.contents writer.new) }
{
    let me = match keys.party() {
        Party::Replica(me) => me,
        Party::Client(_) => return Err(no_replica(&keys)),
    };
    let needed = 2 * keys.faults();
    let replica = replica_of(alloc, keys, me)?;
    match serve(alloc, replica, needed, reader, writer) {
        Ok(()) => Ok(()),
        Err(fault) => Err(ReplicaFault::Serve(fault)),
    }
}

fn no_replica(keys: &PartyKeys) -> ReplicaFault
    ensures { result ≡ faults.Client keys.now.party (3 * keys.now.faults) }
{
    ReplicaFault::Client {
        number: keys.party().number(),
        last_replica: 3 * keys.faults(),
    }
}

// The replica of these keys before its first event. Its signer has signed nothing yet, and there is no other one.
fn replica_of(alloc: Global, keys: PartyKeys, me: ReplicaId) -> Result<Replica, NoMemory>
    requires own { keys.party ≡ me.0 }
    requires valid { IsPartyData keys }
    ensures { IfOk result (BeginsAs keys) }
{
    let Some(signer) = keys.signer() else {
        unreachable!();
    };
    let numbers = Numbers {
        faults: keys.faults(),
        clients: keys.clients(),
        period: keys.period(),
    };
    let ring = keys.ring(alloc)?;
    let publics = keys.publics(alloc)?;
    Replica::new(alloc, numbers, me, ring, signer, publics)
}
