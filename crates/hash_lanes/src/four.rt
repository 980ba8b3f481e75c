//! Four hashes at once, in the lanes of vectors.

ghost use Rattle.std.specs.Prelude.{◌≡◌, ◌+◌, ◌*◌, ◌/◌, ◌%◌, ◌^◌, ◌≤◌, ◌<◌, ℕ, List, ◌++◌, length, take};
ghost use Rattle.sha2.specs.Sha256.{digest_bytes, hash_after};
ghost use Rattle.hash_lanes.specs.Lanes.{AreVectors, lane};
ghost use Rattle.hash_lanes.specs.Midstates.{AreDigests, AreOwnDigests, AreShort, HaveTaken, IsAfter, IsDigestAfter, IsLastBlock};

use crate::lanes::{compress_each, compress_same};
use crate::midstate::{BLOCK_LEN, Midstate, digest};
use crate::tail::{padded, padded_block};
use std::simd::prelude::*;

/// The digests of one text behind the blocks of each of four hashes. If these have taken in as many bytes, the text's
/// message schedule is made once for all four.
pub fn finish_four(states: [&Midstate; 4], text: &[u8]) -> [[u8; 32]; 4]
    ensures { AreDigests states.entry text.now result }
{
    let [a, b, c, d] = states;
    if b.taken() != a.taken() || c.taken() != a.taken() || d.taken() != a.taken() {
        return [
            a.finish(text),
            b.finish(text),
            c.finish(text),
            d.finish(text),
        ];
    }
    let (first, second, third, fourth) = finish_level(a, b, c, d, text);
    [first, second, third, fourth]
}

// The digests of one text behind four hashes that have taken in as many bytes.
fn finish_level(
    a: &Midstate,
    b: &Midstate,
    c: &Midstate,
    d: &Midstate,
    text: &[u8],
) -> ([u8; 32], [u8; 32], [u8; 32], [u8; 32])
    requires b { b.now.taken ≡ a.now.taken }
    requires c { c.now.taken ≡ a.now.taken }
    requires d { d.now.taken ≡ a.now.taken }
    ensures first { IsDigestAfter a.now text.now result.0 }
    ensures second { IsDigestAfter b.now text.now result.1 }
    ensures third { IsDigestAfter c.now text.now result.2 }
    ensures fourth { IsDigestAfter d.now text.now result.3 }
{
    let mut state = gather(a.words(), b.words(), c.words(), d.words());
    let whole = text.len() / BLOCK_LEN;
    'taking: for i in 0..whole {
        let at = BLOCK_LEN * i;
        compress_same(&mut state, &text[at..at + BLOCK_LEN]);
    }
    let (tail, len) = padded(&text[BLOCK_LEN * whole..], a.bits_with(text));
    take_tail(&mut state, &tail, len);
    digests(&state)
}

// Takes the one or two blocks of a tail of this length, 64 or 128, into each lane.
fn take_tail(state: &mut [u32x4; 8], tail: &[u8; 128], len: usize)
    requires low { 64 ≤ len }
    requires high { len ≤ 128 }
    requires whole { len % 64 ≡ 0 }
    requires state { AreVectors 8 state.old }
    ensures lanes { (l : ℕ) → l < 4
        → lane l state.new ≡ hash_after (lane l state.old) (take len tail.now) (len / 64) }
    ensures shape { AreVectors 8 state.new }
{
    compress_same(state, &tail[..BLOCK_LEN]);
    if len > BLOCK_LEN {
        compress_same(state, &tail[BLOCK_LEN..]);
    }
}

/// The digests of four texts, each behind the blocks of its own hash. Each text has fewer than 56 bytes, so that it
/// ends within one block.
pub fn finish_each(states: [&Midstate; 4], texts: [&[u8]; 4]) -> [[u8; 32]; 4]
    requires { AreShort texts }
    ensures { AreOwnDigests states.entry texts.entry result }
{
    let [a, b, c, d] = states;
    let [p, q, r, s] = texts;
    let (first, second, third, fourth) = finish_short(a, b, c, d, p, q, r, s);
    [first, second, third, fourth]
}

// The digests of four short texts, each behind its own hash.
fn finish_short(
    a: &Midstate,
    b: &Midstate,
    c: &Midstate,
    d: &Midstate,
    p: &[u8],
    q: &[u8],
    r: &[u8],
    s: &[u8],
) -> ([u8; 32], [u8; 32], [u8; 32], [u8; 32])
    requires p { length p.now < 56 }
    requires q { length q.now < 56 }
    requires r { length r.now < 56 }
    requires s { length s.now < 56 }
    ensures first { IsDigestAfter a.now p.now result.0 }
    ensures second { IsDigestAfter b.now q.now result.1 }
    ensures third { IsDigestAfter c.now r.now result.2 }
    ensures fourth { IsDigestAfter d.now s.now result.3 }
{
    let mut state = gather(a.words(), b.words(), c.words(), d.words());
    let first = last_block(a, p);
    let second = last_block(b, q);
    let third = last_block(c, r);
    let fourth = last_block(d, s);
    compress_each(&mut state, &first, &second, &third, &fourth);
    digests(&state)
}

/// The four hashes after one more block each.
pub fn take_each(states: [Midstate; 4], blocks: [&[u8; 64]; 4]) -> [Midstate; 4]
    ensures { HaveTaken states blocks.entry result }
{
    let [a, b, c, d] = states;
    let [p, q, r, s] = blocks;
    let (a, b, c, d) = take_next(&a, &b, &c, &d, p, q, r, s);
    [a, b, c, d]
}

// Four hashes after one more block each.
fn take_next(
    a: &Midstate,
    b: &Midstate,
    c: &Midstate,
    d: &Midstate,
    p: &[u8; 64],
    q: &[u8; 64],
    r: &[u8; 64],
    s: &[u8; 64],
) -> (Midstate, Midstate, Midstate, Midstate)
    ensures first { (m : List ℕ) → IsAfter a.now m → IsAfter result.0 (m ++ p.now) }
    ensures second { (m : List ℕ) → IsAfter b.now m → IsAfter result.1 (m ++ q.now) }
    ensures third { (m : List ℕ) → IsAfter c.now m → IsAfter result.2 (m ++ r.now) }
    ensures fourth { (m : List ℕ) → IsAfter d.now m → IsAfter result.3 (m ++ s.now) }
{
    let mut state = gather(a.words(), b.words(), c.words(), d.words());
    compress_each(&mut state, p, q, r, s);
    (
        a.moved_to(lane_words(&state, 0)),
        b.moved_to(lane_words(&state, 1)),
        c.moved_to(lane_words(&state, 2)),
        d.moved_to(lane_words(&state, 3)),
    )
}

// The words of four hash values, side by side.
fn gather(a: &[u32; 8], b: &[u32; 8], c: &[u32; 8], d: &[u32; 8]) -> [u32x4; 8]
    ensures first { lane 0 result ≡ a.now }
    ensures second { lane 1 result ≡ b.now }
    ensures third { lane 2 result ≡ c.now }
    ensures fourth { lane 3 result ≡ d.now }
    ensures shape { AreVectors 8 result }
{
    [
        u32x4::from_array([a[0], b[0], c[0], d[0]]),
        u32x4::from_array([a[1], b[1], c[1], d[1]]),
        u32x4::from_array([a[2], b[2], c[2], d[2]]),
        u32x4::from_array([a[3], b[3], c[3], d[3]]),
        u32x4::from_array([a[4], b[4], c[4], d[4]]),
        u32x4::from_array([a[5], b[5], c[5], d[5]]),
        u32x4::from_array([a[6], b[6], c[6], d[6]]),
        u32x4::from_array([a[7], b[7], c[7], d[7]]),
    ]
}

// The words of one lane.
#[inline(always)]
fn lane_words(state: &[u32x4; 8], l: usize) -> [u32; 8]
    requires l { l < 4 }
    requires shape { AreVectors 8 state.now }
    ensures { result ≡ lane l state.now }
{
    [
        state[0].to_array()[l],
        state[1].to_array()[l],
        state[2].to_array()[l],
        state[3].to_array()[l],
        state[4].to_array()[l],
        state[5].to_array()[l],
        state[6].to_array()[l],
        state[7].to_array()[l],
    ]
}

// The digests of the hash values in the lanes.
fn digests(state: &[u32x4; 8]) -> ([u8; 32], [u8; 32], [u8; 32], [u8; 32])
    requires { AreVectors 8 state.now }
    ensures first { result.0 ≡ digest_bytes (lane 0 state.now) 8 }
    ensures second { result.1 ≡ digest_bytes (lane 1 state.now) 8 }
    ensures third { result.2 ≡ digest_bytes (lane 2 state.now) 8 }
    ensures fourth { result.3 ≡ digest_bytes (lane 3 state.now) 8 }
{
    (
        digest(&lane_words(state, 0)),
        digest(&lane_words(state, 1)),
        digest(&lane_words(state, 2)),
        digest(&lane_words(state, 3)),
    )
}

// The padded block of a short text behind a hash.
fn last_block(state: &Midstate, text: &[u8]) -> [u8; 64]
    requires { length text.now < 56 }
    ensures { IsLastBlock state.now text.now result }
{
    padded_block(text, state.bits_with(text))
}
