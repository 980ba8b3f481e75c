//! Read-only requests, authenticated in the bytes of their frames.

ghost use Rattle.std.specs.Prelude.{◌≡◌, ◌==◌, ℕ, List, slice_index, true, IfSome, IsFalse, IsNone};
ghost use Rattle.signing.specs.AuthenticBody.{authentic};
ghost use Rattle.signing.specs.Publics.{knows};
ghost use Rattle.wire.specs.Marks.{asks_read};
ghost use Rattle.read_only.specs.Receiving.{NobodyReceivesRead, AuthenticatesRead};

use authenticator::Ring;
use signing::authenticate_request;
use terms::{ClientId, ReplicaId, Timestamp};
use wire::has_type_of_requests;

/// A read-only request as it stands in the bytes of its frame.
#[derive(Clone, Copy, Drop)]
pub struct ReadRequest<'b> {
    pub client: ClientId,
    pub timestamp: Timestamp,
    /// The bytes of its operation.
    pub op: &'b [u8],
}

/// Whether the bytes have the marks of a read-only request: byte 4 is 41 and byte 15 is 01 (hex). Takes constant
/// time, and no memory.
pub fn asks_read(bytes: &[u8]) -> bool
    ensures value { result ≡ asks_read bytes.now }
    ensures none { IsFalse result → NobodyReceivesRead bytes.now }
{
    has_type_of_requests(bytes) && has_read_only_mode(bytes)
}

fn has_read_only_mode(bytes: &[u8]) -> bool
    ensures { result ≡ slice_index bytes.now 15 == 0x01 }
{
    match bytes {
        [_, _, _, _, _, _, _, _, _, _, _, _, _, _, _, 0x01, ..] => true,
        _ => false,
    }
}

/// The read-only request that the replica receives from bytes with these marks. They are judged in their place: nothing
/// is decoded, and only the keys and requests that the ring keeps take memory. Which public keys the replica knows
/// doesn't matter.
pub fn authenticate_read<'b>(
    ring: &mut Ring,
    me: ReplicaId,
    bytes: &'b [u8],
) -> Option<ReadRequest<'b>>
    requires marks { asks_read bytes.now ≡ true }
    ensures some { (publics : List (List ℕ)) → IfSome result (λ r.
        AuthenticatesRead (knows ring.old publics) me.0 bytes.now r.client.number r.timestamp.0 r.op.now) }
    ensures none { (publics : List (List ℕ))
        → IsNone result → authentic (knows ring.old publics) me.0 bytes.now ≡ None }
    ensures same { ring.new ≡ ring.old }
{
    let request = authenticate_request(ring, me, bytes)?;
    Some(ReadRequest {
        client: request.client,
        timestamp: request.timestamp,
        op: request.op,
    })
}
