//! Frames that faulty parties make.

ghost use Rattle.std.specs.Prelude.{◌≡◌, ◌<◌, ◌≤◌, length, IfOk, IfSome};
ghost use Rattle.wire_format.specs.Spelling.{piece};
ghost use Rattle.schedule_world.specs.Faulty.{IsPartyAt};
ghost use Rattle.schedule_world.specs.Making.{sealed_text, signed_text};

use crate::faulty::FaultyParty;
use authenticator::Ring;
use events::Config;
use std::alloc::Global;
use terms::{NoMemory, Party};
use wire::{Authenticator, put_authenticator};

// Where the party is among those that have made a frame, as it does from now on.
fn place_of(
    alloc: Global,
    config: &Config,
    faulty: &mut Vec<FaultyParty>,
    party: Party,
) -> Result<usize, NoMemory>
    ensures { IfOk result (λ at. IsPartyAt config.now.seed party faulty.new.items at) }
{
    let seed = config.seed();
    if let Some(at) = find(faulty.as_slice(), seed, party) {
        return Ok(at);
    }
    let ring = Ring::dealt(alloc, seed, config.faults(), config.clients(), party);
    let at = faulty.len();
    faulty.push(FaultyParty::new(seed, party, ring))?;
    Ok(at)
}

fn find(faulty: &[FaultyParty], seed: &[u8; 32], party: Party) -> Option<usize>
    ensures { IfSome result (λ at. IsPartyAt seed.now party faulty.now at) }
{
    for (at, one) in faulty.iter().enumerate() {
        if one.is(seed, party) {
            return Some(at);
        }
    }
    None
}

/// The bytes of a frame with these bytes as its body, whatever they spell, and a MAC of the sender's for each of up to
/// 10 receivers.
pub(crate) fn seal_bytes(
    alloc: Global,
    config: &Config,
    faulty: &mut Vec<FaultyParty>,
    sender: Party,
    receivers: &[Party],
    body: &[u8],
) -> Result<Vec<u8>, NoMemory>
    requires { length receivers.now ≤ 10 }
    ensures { IfOk result (λ bytes. bytes.items ≡ sealed_text config.now.seed sender receivers.now body.now) }
{
    let mut frame = begin_bytes(alloc, body)?;
    let at = place_of(alloc, config, faulty, sender)?;
    let macs = faulty[at].macs_for(receivers, body);
    put_authenticator(&mut frame, &Authenticator::Macs(macs))?;
    Ok(frame)
}

/// The bytes of a frame with these bytes as its body, whatever they spell, signed with a leaf of the replica's own
/// keys, also one that has signed before.
pub(crate) fn sign_bytes(
    alloc: Global,
    config: &Config,
    faulty: &mut Vec<FaultyParty>,
    signer: Party,
    leaf: u8,
    body: &[u8],
) -> Result<Vec<u8>, NoMemory>
    requires { leaf < 64 }
    ensures { IfOk result (λ bytes. bytes.items ≡ signed_text config.now.seed signer leaf body.now) }
{
    let mut frame = begin_bytes(alloc, body)?;
    let at = place_of(alloc, config, faulty, signer)?;
    let signature = faulty[at].sign(alloc, leaf, body)?;
    put_authenticator(
        &mut frame,
        &Authenticator::Signature(signature.into_bytes()),
    )?;
    Ok(frame)
}

// The length of a body and its bytes.
fn begin_bytes(alloc: Global, body: &[u8]) -> Result<Vec<u8>, NoMemory>
    ensures { IfOk result (λ frame. frame.items ≡ piece body.now) }
{
    let mut frame = Vec::new(alloc);
    // The length has four bytes.
    let len = (body.len() as u64).to_be_bytes();
    frame.extend_from_slice(&len[4..])?;
    frame.extend_from_slice(body)?;
    Ok(frame)
}
