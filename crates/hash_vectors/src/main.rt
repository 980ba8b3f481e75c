//! Prints digests that four lanes give, so that the programs of both compilers are held against outside values.
//!
//! What has to be printed was made by Python's hashlib. In lane `l`, from 0, a hash has taken in a block of bytes `l +
//! 1`. Byte `i` of a text of `n` bytes is `step * i + n` modulo 256. First all lanes share one text of each length,
//! with step 7. Then each lane has a text of its own, with step `3 + 2 l`. At last each lane takes in the block of lane
//! `3 - l`, and `abc` follows.
#![tactic(auto)]

ghost use Rattle.std.specs.Prelude.{◌≤◌, ◌<◌};

use hash_lanes::{Midstate, finish_each, finish_four, take_each};
use std::io;

/// Lengths of texts that all lanes share: round the ends of blocks, and round those of their padding.
static SHARED: [usize; 16] = [
    0, 1, 3, 54, 55, 56, 63, 64, 65, 118, 119, 120, 127, 128, 129, 1000,
];

/// Lengths of texts that end within a block.
static SHORT: [usize; 6] = [0, 1, 5, 32, 54, 55];

fn main(rt: HostRuntime) -> io::Result<()> {
    for &len in &SHARED {
        println!(rt; "same {len}")?;
        for digest in &shared(len.min(1000)) {
            println!(rt; "{}", hex::encode(rt.alloc(), digest)?)?;
        }
    }
    for &len in &SHORT {
        println!(rt; "own {len}")?;
        for digest in &own(len.min(55)) {
            println!(rt; "{}", hex::encode(rt.alloc(), digest)?)?;
        }
    }
    println!(rt; "blocks 2")?;
    for digest in &blocks() {
        println!(rt; "{}", hex::encode(rt.alloc(), digest)?)?;
    }
    Ok(())
}

// Four hashes that have taken in a block each.
fn begun() -> [Midstate; 4] {
    [begun_by(1), begun_by(2), begun_by(3), begun_by(4)]
}

fn begun_by(byte: u8) -> Midstate {
    let mut state = Midstate::new();
    state.take(&[byte; 64]);
    state
}

// Up to 1,000 bytes of a text.
fn text(len: usize, step: u8) -> [u8; 1000] {
    let mut text = [0; 1000];
    let mut byte = (len % 256) as u8;
    for place in text.iter_mut() {
        *place = byte;
        byte = byte.wrapping_add(step);
    }
    text
}

// The digests of one text in all lanes.
fn shared(len: usize) -> [[u8; 32]; 4]
    requires { len ≤ 1000 }
{
    let [a, b, c, d] = begun();
    finish_four([&a, &b, &c, &d], &text(len, 7)[..len])
}

// The digests of a text of its own in each lane.
fn own(len: usize) -> [[u8; 32]; 4]
    requires { len < 56 }
{
    let [a, b, c, d] = begun();
    let (p, q, r, s) = (text(len, 3), text(len, 5), text(len, 7), text(len, 9));
    finish_each(
        [&a, &b, &c, &d],
        [&p[..len], &q[..len], &r[..len], &s[..len]],
    )
}

// The digests after two blocks in each lane.
fn blocks() -> [[u8; 32]; 4] {
    let [a, b, c, d] = take_each(begun(), [&[4; 64], &[3; 64], &[2; 64], &[1; 64]]);
    finish_four([&a, &b, &c, &d], b"abc")
}
