//! From bytes to authentic frames.

ghost use Rattle.std.specs.Prelude.{◌≡◌, IfOk, IfErr, is_ok, is_some};
ghost use Rattle.terms.specs.Parties.{party_number};
ghost use Rattle.wire.specs.Headers.{header_data};
ghost use Rattle.signing.specs.AuthenticBody.{authentic};
ghost use Rattle.signing.specs.Publics.{knows};
ghost use Rattle.signing.specs.Receiving.{RefusesBytes, signature_holds};
ghost use Rattle.signing.specs.Results.{IsAuthenticTo, AuthenticatesEach};

use crate::authentic_frame::AuthenticFrame;
use crate::authentication_fault::AuthenticationFault;
use crate::public_keys::PublicKeys;
use authenticator::Ring;
use std::alloc::Global;
use terms::Party;
use wire::{AuthenticatorBytes, Header, decode_judged_body, judge};

/// The frame in the bytes, if it is authentic to `me`: a frame of another party, which takes part and may send such a
/// message, with the right MAC for `me`, or signed by its sender where it is a view change or a new view. Its body
/// alone is decoded.
///
/// # Errors
///
/// The first that applies, in the order of [`AuthenticationFault`]. Bytes that are refused take no memory, so want of
/// it comes last.
pub fn authenticate<'b>(
    alloc: Global,
    ring: &mut Ring,
    publics: &PublicKeys,
    bytes: &'b [u8],
    me: Party,
) -> Result<AuthenticFrame<'b>, AuthenticationFault>
    ensures authentic { IfOk result (IsAuthenticTo (knows ring.old publics.now) me bytes.now) }
    ensures carried { IfOk result (λ h. h.bytes.now ≡ bytes.now) }
    ensures all { AuthenticatesEach (knows ring.old publics.now) me bytes.now result }
    ensures refused { IfErr result (RefusesBytes (knows ring.old publics.now) (party_number me) bytes.now) }
    ensures ring { ring.new ≡ ring.old }
{
    check_authentic(ring, publics, bytes, me)?;
    let body = decode_judged_body(alloc, bytes)?;
    Ok(AuthenticFrame { bytes, body })
}

/// Whether the bytes are a frame that is authentic to `me`: then [`authenticate`] gives a frame, unless memory runs
/// out. The bytes are judged where they lie: nothing is decoded, and no memory is taken but for the keys and requests
/// that the ring keeps.
pub fn is_authentic_for(ring: &mut Ring, publics: &PublicKeys, bytes: &[u8], me: Party) -> bool
    ensures authentic { result ≡ is_some (authentic (knows ring.old publics.now) (party_number me) bytes.now) }
    ensures ring { ring.new ≡ ring.old }
{
    check_authentic(ring, publics, bytes, me).is_ok()
}

// Judges the bytes where they lie: whether they are a frame that is authentic to `me`, and else the first refusal that
// applies.
fn check_authentic(
    ring: &mut Ring,
    publics: &PublicKeys,
    bytes: &[u8],
    me: Party,
) -> Result<(), AuthenticationFault>
    ensures authentic { is_ok result ≡ is_some (authentic (knows ring.old publics.now) (party_number me) bytes.now) }
    ensures refused { IfErr result (RefusesBytes (knows ring.old publics.now) (party_number me) bytes.now) }
    ensures ring { ring.new ≡ ring.old }
{
    let header = judge(bytes)?;
    if header.sender.number() == me.number() {
        return Err(AuthenticationFault::UnknownSender);
    }
    if let Some(fault) = ring.refusal(&header, me) {
        return Err(fault.into());
    }
    if !signature_holds(publics, &header) {
        return Err(AuthenticationFault::BadSignature);
    }
    Ok(())
}

// Whether a signature, where the frame has one, is its sender's.
fn signature_holds(publics: &PublicKeys, header: &Header<'_>) -> bool
    ensures { result ≡ signature_holds publics.now (header_data header.now) }
{
    match &header.authenticator {
        AuthenticatorBytes::Macs(_) => true,
        AuthenticatorBytes::Signature(signature) => publics.verify(
            header.sender,
            header.text,
            signature,
        ),
    }
}
