//! Received frames.

ghost use Rattle.std.specs.Prelude.{◌≡◌, IfOk};
ghost use Rattle.signing.specs.Publics.{knows};
ghost use Rattle.frame_endpoint.specs.Endpoint.{are_authentic};
ghost use Rattle.frame_endpoint.specs.Frames.{AuthenticatesBytes, slice_texts};

use authenticator::Ring;
use signing::{AuthenticFrame, AuthenticationFault, PublicKeys, authenticate, is_authentic_for};
use std::alloc::Global;
use terms::{NoMemory, Party, ReplicaId};
use wire::Body;

/// The body of the frame in the bytes, if it is authentic to the replica.
pub(crate) fn authenticate_body(
    ring: &mut Ring,
    publics: &PublicKeys,
    alloc: Global,
    me: ReplicaId,
    bytes: &[u8],
) -> Result<Option<Body>, NoMemory>
    ensures authentic { IfOk result (AuthenticatesBytes (knows ring.old publics.now) me.0 bytes.now) }
    ensures same { ring.new ≡ ring.old }
{
    match authenticate(alloc, ring, publics, bytes, Party::Replica(me)) {
        Ok(authentic) => {
            let AuthenticFrame { bytes: _, body } = authentic;
            Ok(Some(body))
        }
        Err(fault) => match fault {
            AuthenticationFault::NoMemory => Err(NoMemory),
            _ => Ok(None),
        },
    }
}

/// Whether each of these is a frame that is authentic to the replica. Nothing is decoded.
pub(crate) fn are_all_authentic(
    ring: &mut Ring,
    publics: &PublicKeys,
    me: ReplicaId,
    frames: &[&[u8]],
) -> bool
    ensures authentic { result ≡ are_authentic (knows ring.old publics.now) me.0 (slice_texts frames.now) }
    ensures same { ring.new ≡ ring.old }
{
    for frame in frames {
        if !is_authentic_for(ring, publics, frame, Party::Replica(me)) {
            return false;
        }
    }
    true
}
