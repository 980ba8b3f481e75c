//! The requests of a client.

ghost use Rattle.std.specs.Prelude.{◌≡◌, ◌≤◌, IfOk, map};
ghost use Rattle.std.specs.List.{range_with_len};
ghost use Rattle.terms.specs.Parties.{party_number};
ghost use Rattle.tuple_codec.specs.OperationView.{operation_of};
ghost use Rattle.wire_format.specs.Views.{body_data};
ghost use Rattle.protocol.specs.Client.RightClient.{first_mode};
ghost use Rattle.client_cert.specs.Asking.{AsksAs, IsSealableForAll, IsShort, SealsForAll};

use authenticator::{Ring, SealFault};
use events::Stop;
use std::alloc::{AllocError, Global};
use terms::{ClientId, Mode, Party, ReplicaId, Timestamp};
use tuple_codec::Op;
use wire::{Body, Message, Request};

/// Gives the operation back, and the bytes of its request, sealed for all replicas.
pub(crate) fn seal_request(
    ring: &mut Ring,
    alloc: Global,
    client: ClientId,
    faults: u8,
    timestamp: Timestamp,
    mode: Mode,
    op: Op<Global>,
) -> (Op<Global>, Result<Vec<u8>, Stop>)
    requires faults { faults ≡ ring.old.faults }
    requires few { faults ≤ 3 }
    ensures op { operation_of result.0 ≡ operation_of op }
    ensures sealed { IfOk result.1 (AsksAs ring.old client mode timestamp (operation_of op)) }
    ensures same { ring.new ≡ ring.old }
{
    op.note_valid();
    let _number = note_timestamp(timestamp);
    let message = Message::Request(Request {
        timestamp,
        mode,
        op,
    });
    let body = Body {
        sender: Party::Client(client),
        message,
    };
    let sealed = seal_for_all(ring, alloc, faults, &body);
    let Body { sender: _, message } = body;
    match message {
        Message::Request(request) => {
            let Request {
                timestamp: _,
                mode: _,
                op,
            } = request;
            (op, sealed)
        }
        _ => unreachable!(),
    }
}

// The frame of a body, sealed for all replicas.
fn seal_for_all(ring: &mut Ring, alloc: Global, faults: u8, body: &Body) -> Result<Vec<u8>, Stop>
    requires few { faults ≤ 3 }
    requires may { IsSealableForAll faults (body_data body.now) }
    requires short { IsShort (body_data body.now) }
    ensures sealed { IfOk result (SealsForAll ring.old.keys faults (body_data body.now)) }
    ensures same { ring.new ≡ ring.old }
{
    let replicas = all_replicas(alloc, 3 * faults + 1)?;
    match ring.seal(alloc, body, replicas.as_slice()) {
        Ok(frame) => Ok(frame),
        Err(SealFault::NoMemory) => Err(Stop::NoMemory),
        Err(SealFault::TooLarge) => unreachable!(),
    }
}

/// The parties of the replicas, in order.
#[tactic(auto, using(crate::proofs::Sealed::replicas_more))]
pub(crate) fn all_replicas(alloc: Global, count: u8) -> Result<Vec<Party>, AllocError>
    ensures { IfOk result (λ parties. map party_number parties.items ≡ range_with_len 0 count) }
{
    let mut parties = Vec::new(alloc);
    for replica in 0..count {
        parties.push(Party::Replica(ReplicaId(replica)))?;
    }
    Ok(parties)
}

// A timestamp fits its bytes.
fn note_timestamp(timestamp: Timestamp) -> u64
    ensures { result ≡ timestamp.0 }
{
    timestamp.0
}

/// The mode of the first request for an operation: a read at once from the executed state, any other in its place in
/// the order.
pub(crate) fn first_mode(op: &Op<Global>) -> Mode
    ensures { result ≡ first_mode (operation_of op.now) }
{
    if op.is_read() {
        Mode::ReadOnly
    } else {
        Mode::Ordered
    }
}
