//! Frames of signed view changes, spelled byte by byte from their format: type 46, sender, view, low mark, and three
//! lists, each after its count.

use authenticator::signing_seed;
use ordering::HashedBatch;
use signing::{SignFault, Signature, Signer};
use std::alloc::{AllocError, Global};
use std::sync::Arc;
use terms::{Party, ReplicaId};
use test_bytes::Buffer;
use wire::Batch;

/// The seed of all keys.
pub const SEED: [u8; 32] = [5; 32];

/// Of this byte is the root of the checkpoint that each view change lists.
pub const ROOT: u8 = 7;

/// A view change: its view, its low mark, at which it lists a checkpoint, and the byte of the batch that it prepared
/// and logged for number 1 in view 0, or 0 for none.
pub type Said = (u64, u64, u8);

// The signer of a replica.
fn signer_of(replica: u8) -> Signer {
    let party = Party::Replica(ReplicaId(replica));
    Signer::from_seed(&signing_seed(&SEED, party))
}

// Puts an entry for number 1 in view 0, behind its count.
fn put_one(alloc: Global, byte: u8, out: &mut Buffer) {
    let mut text = Buffer::new(alloc);
    text.put_byte(byte);
    out.put_short(1);
    out.put_number(1);
    out.put_digest(&text);
    out.put_number(0);
}

fn put_entry(alloc: Global, byte: u8, out: &mut Buffer) {
    if byte == 0 {
        out.put_short(0);
    } else {
        put_one(alloc, byte, out);
    }
}

fn put_said(alloc: Global, (view, low, byte): Said, out: &mut Buffer) {
    out.put_number(view);
    out.put_number(low);
    out.put_byte(1);
    out.put_number(low);
    out.put(&[ROOT; 32]);
    put_entry(alloc, byte, out);
    put_entry(alloc, byte, out);
}

fn put_body(alloc: Global, sender: u8, said: Said, out: &mut Buffer) {
    out.put_byte(0x46);
    out.put_short(u16::from(sender));
    put_said(alloc, said, out);
}

// At the second try if memory ran out at the first one. That spends no leaf.
fn signature_of(alloc: Global, signer: &mut Signer, body: &[u8]) -> Result<Signature, SignFault> {
    match signer.sign(alloc, body) {
        Err(SignFault::NoMemory) => signer.sign(alloc, body),
        first => first,
    }
}

// None if the signer has no leaf left.
fn put_signature(alloc: Global, signer: &mut Signer, body: &[u8], out: &mut Buffer) {
    match signature_of(alloc, signer, body) {
        Ok(signature) => out.put(signature.as_slice()),
        Err(SignFault::NoMemory) => out.cut(),
        Err(SignFault::KeysSpent) => {}
    }
}

// The frame of a replica's view change, with its signature.
fn change(alloc: Global, signer: &mut Signer, sender: u8, said: Said) -> Buffer {
    let mut body = Buffer::new(alloc);
    put_body(alloc, sender, said, &mut body);
    let mut frame = Buffer::new(alloc);
    frame.put_framed(&body);
    frame.put_byte(1);
    put_signature(alloc, signer, body.bytes(), &mut frame);
    frame
}

fn change_by(alloc: Global, signers: &mut [Signer], sender: u8, said: Said) -> Buffer {
    match signers.get_mut(usize::from(sender)) {
        Some(signer) => change(alloc, signer, sender, said),
        None => Buffer::new(alloc),
    }
}

/// Adds what was made to a list.
pub fn add<T: Drop>(list: &mut Vec<T>, made: Result<T, AllocError>) -> Result<(), AllocError> {
    list.push(made?)?;
    Ok(())
}

fn put_changes(
    alloc: Global,
    signers: &mut [Signer],
    all: &[(u8, Said)],
    frames: &mut Vec<Vec<u8>>,
) -> Result<(), AllocError> {
    for &(sender, said) in all {
        add(frames, change_by(alloc, signers, sender, said).whole())?;
    }
    Ok(())
}

fn put_signed(
    alloc: Global,
    all: &[(u8, Said)],
    frames: &mut Vec<Vec<u8>>,
) -> Result<(), AllocError> {
    let mut signers = [signer_of(0), signer_of(1), signer_of(2)];
    let put = put_changes(alloc, &mut signers, all, frames);
    drop(signers);
    put
}

// The last byte is the signature's.
fn break_last(frames: &mut [Vec<u8>]) {
    if let Some(byte) = frames.last_mut().and_then(|frame| frame.last_mut()) {
        *byte ^= 1;
    }
}

/// The frames of view changes, each by its sender, replica 0, 1 or 2. The signature of the last one is broken.
pub fn changes(alloc: Global, all: &[(u8, Said)]) -> Result<Vec<Vec<u8>>, AllocError> {
    let mut frames = Vec::new(alloc);
    put_signed(alloc, all, &mut frames)?;
    break_last(&mut frames);
    Ok(frames)
}

/// The batch of this byte: no text of requests, which no test reads.
pub fn batch(alloc: Global, byte: u8) -> Result<Arc<HashedBatch>, AllocError> {
    let text = vec![in alloc; byte]?;
    Ok(Arc::new(alloc, HashedBatch::new(Batch { text }))?)
}
