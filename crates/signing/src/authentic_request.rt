//! Requests, authenticated in the bytes of their frames.

ghost use Rattle.std.specs.Prelude.{◌≡◌, ℕ, List, true, IfSome, IsNone};
ghost use Rattle.wire.specs.Marks.{has_type_of_requests};
ghost use Rattle.signing.specs.AuthenticBody.{authentic};
ghost use Rattle.signing.specs.Publics.{knows};
ghost use Rattle.signing.specs.Requests.{AuthenticatesRequest};

use authenticator::Ring;
use terms::{ClientId, Mode, Party, ReplicaId, Timestamp};
use wire::{judge, request_in};

/// A client's request as it stands in the bytes of its frame.
#[derive(Clone, Copy, Drop)]
pub struct AuthenticRequest<'b> {
    pub client: ClientId,
    pub timestamp: Timestamp,
    pub mode: Mode,
    /// The bytes of its operation.
    pub op: &'b [u8],
}

/// The request that the replica receives from bytes with the type of requests. They are judged in their place: nothing
/// is decoded, and only the keys and requests that the ring keeps take memory.
pub fn authenticate_request<'b>(
    ring: &mut Ring,
    me: ReplicaId,
    bytes: &'b [u8],
) -> Option<AuthenticRequest<'b>>
    requires { has_type_of_requests bytes.now ≡ true }
    ensures some { (publics : List (List ℕ)) → IfSome result (AuthenticatesRequest (knows ring.old publics) me.0 bytes.now) }
    ensures none { (publics : List (List ℕ)) → IsNone result → authentic (knows ring.old publics) me.0 bytes.now ≡ None }
    ensures same { ring.new ≡ ring.old }
{
    let Ok(header) = judge(bytes) else {
        return None;
    };
    let me = Party::Replica(me);
    if header.sender.number() == me.number() {
        return None;
    }
    if ring.refusal(&header, me).is_some() {
        return None;
    }
    let request = request_in(bytes);
    // Only clients send requests.
    let Party::Client(client) = request.sender else {
        return None;
    };
    Some(AuthenticRequest {
        client,
        timestamp: request.timestamp,
        mode: request.mode,
        op: request.op,
    })
}
