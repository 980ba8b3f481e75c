//! Compressions of four blocks into four hash values, side by side in the lanes of vectors (FIPS 180-4, section 6.2.2).

ghost use Rattle.std.specs.Prelude.{◌≡◌, ◌+◌, ◌*◌, ◌≤◌, ◌<◌, ℕ, List, length, slice_index};
ghost use Rattle.sha2.specs.Sha256.{add_state, big_sigma0, big_sigma1, ch, compress, maj, next_word, round, small_sigma0, small_sigma1};
ghost use Rattle.hash_lanes.specs.Lanes.{AreVectors, HasLanes, lane, rotated};
ghost use Rattle.hash_lanes.specs.Rounds.{HoldsBlock, HoldsGroup, HoldsSchedule, IsAfterRounds};

use crate::words::{ROUND_CONSTANTS, schedule, word};
use std::simd::prelude::*;

#[inline(always)]
fn rotated(x: u32x4, by: u32) -> u32x4
    requires low { 0 < by }
    requires high { by < 32 }
    ensures { HasLanes result (λ l. rotated (slice_index x l) by) }
{
    (x >> u32x4::splat(by)) | (x << u32x4::splat(32 - by))
}

// One operation fewer than the standard's form.
#[inline(always)]
fn ch(x: u32x4, y: u32x4, z: u32x4) -> u32x4
    ensures { HasLanes result (λ l. ch (slice_index x l) (slice_index y l) (slice_index z l)) }
{
    z ^ (x & (y ^ z))
}

// One round's `x ^ y` is the next round's `y ^ z`, so a compiler makes it once.
#[inline(always)]
fn maj(x: u32x4, y: u32x4, z: u32x4) -> u32x4
    ensures { HasLanes result (λ l. maj (slice_index x l) (slice_index y l) (slice_index z l)) }
{
    y ^ ((x ^ y) & (y ^ z))
}

#[inline(always)]
fn big_sigma0(x: u32x4) -> u32x4
    ensures { HasLanes result (λ l. big_sigma0 (slice_index x l)) }
{
    rotated(x ^ rotated(x ^ rotated(x, 9), 11), 2)
}

#[inline(always)]
fn big_sigma1(x: u32x4) -> u32x4
    ensures { HasLanes result (λ l. big_sigma1 (slice_index x l)) }
{
    rotated(x ^ rotated(x ^ rotated(x, 14), 5), 6)
}

#[inline(always)]
fn small_sigma0(x: u32x4) -> u32x4
    ensures { HasLanes result (λ l. small_sigma0 (slice_index x l)) }
{
    rotated(x ^ rotated(x, 11), 7) ^ (x >> u32x4::splat(3))
}

#[inline(always)]
fn small_sigma1(x: u32x4) -> u32x4
    ensures { HasLanes result (λ l. small_sigma1 (slice_index x l)) }
{
    rotated(x ^ rotated(x, 2), 17) ^ (x >> u32x4::splat(10))
}

#[inline(always)]
fn round(v: [u32x4; 8], constant: u32, word: u32x4) -> [u32x4; 8]
    requires { AreVectors 8 v }
    ensures lanes { (l : ℕ) → l < 4 → lane l result ≡ round (lane l v) constant (slice_index word l) }
    ensures shape { AreVectors 8 result }
{
    let [a, b, c, d, e, f, g, h] = v;
    let first = h + big_sigma1(e) + ch(e, f, g) + u32x4::splat(constant) + word;
    let second = big_sigma0(a) + maj(a, b, c);
    [first + second, a, b, c, d + first, e, f, g]
}

// Round `8 * turn + k`, whose words stand at `k` of the group.
#[inline(always)]
fn step(group: &[u32x4; 8], v: [u32x4; 8], turn: usize, k: usize) -> [u32x4; 8]
    requires turn { turn < 8 }
    requires k { k < 8 }
    requires group { AreVectors 8 group.now }
    requires shape { AreVectors 8 v }
    ensures lanes { (l : ℕ) → l < 4 → (b h : List ℕ) → HoldsGroup b turn (lane l group.now)
        → IsAfterRounds h b (8 * turn + k) (lane l v) → IsAfterRounds h b (8 * turn + (k + 1)) (lane l result) }
    ensures shape { AreVectors 8 result }
{
    round(v, ROUND_CONSTANTS[8 * turn + k], group[k])
}

// Eight rounds, after which each variable is at its place again.
#[inline(always)]
fn eight_steps(group: &[u32x4; 8], v: [u32x4; 8], turn: usize) -> [u32x4; 8]
    requires turn { turn < 8 }
    requires group { AreVectors 8 group.now }
    requires shape { AreVectors 8 v }
    ensures lanes { (l : ℕ) → l < 4 → (b h : List ℕ) → HoldsGroup b turn (lane l group.now)
        → IsAfterRounds h b (8 * turn) (lane l v) → IsAfterRounds h b (8 * (turn + 1)) (lane l result) }
    ensures shape { AreVectors 8 result }
{
    let v = step(group, v, turn, 0);
    let v = step(group, v, turn, 1);
    let v = step(group, v, turn, 2);
    let v = step(group, v, turn, 3);
    let v = step(group, v, turn, 4);
    let v = step(group, v, turn, 5);
    let v = step(group, v, turn, 6);
    step(group, v, turn, 7)
}

// The words of eight rounds, each lane's its own.
#[inline(always)]
fn own_group(words: &[u32x4; 64], turn: usize) -> [u32x4; 8]
    requires turn { turn < 8 }
    requires words { AreVectors 64 words.now }
    ensures lanes { (l : ℕ) → l < 4 → (b : List ℕ) → HoldsSchedule b (lane l words.now)
        → HoldsGroup b turn (lane l result) }
    ensures shape { AreVectors 8 result }
{
    [
        words[8 * turn],
        words[8 * turn + 1],
        words[8 * turn + 2],
        words[8 * turn + 3],
        words[8 * turn + 4],
        words[8 * turn + 5],
        words[8 * turn + 6],
        words[8 * turn + 7],
    ]
}

// The words of eight rounds, the same in each lane.
#[inline(always)]
fn same_group(words: &[u32; 64], turn: usize) -> [u32x4; 8]
    requires { turn < 8 }
    ensures lanes { (l : ℕ) → l < 4 → (b : List ℕ) → HoldsSchedule b words.now
        → HoldsGroup b turn (lane l result) }
    ensures shape { AreVectors 8 result }
{
    [
        u32x4::splat(words[8 * turn]),
        u32x4::splat(words[8 * turn + 1]),
        u32x4::splat(words[8 * turn + 2]),
        u32x4::splat(words[8 * turn + 3]),
        u32x4::splat(words[8 * turn + 4]),
        u32x4::splat(words[8 * turn + 5]),
        u32x4::splat(words[8 * turn + 6]),
        u32x4::splat(words[8 * turn + 7]),
    ]
}

// Adds the working variables after all rounds to the hash values.
fn add(state: &mut [u32x4; 8], v: &[u32x4; 8])
    requires state { AreVectors 8 state.old }
    requires v { AreVectors 8 v.now }
    ensures lanes { (l : ℕ) → l < 4 → lane l state.new ≡ add_state (lane l state.old) (lane l v.now) }
    ensures shape { AreVectors 8 state.new }
{
    *state = [
        state[0] + v[0],
        state[1] + v[1],
        state[2] + v[2],
        state[3] + v[3],
        state[4] + v[4],
        state[5] + v[5],
        state[6] + v[6],
        state[7] + v[7],
    ];
}

/// Takes the same block into each of four hash values. Its message schedule is made once.
pub(crate) fn compress_same(state: &mut [u32x4; 8], block: &[u8])
    requires block { length block.now ≡ 64 }
    requires state { AreVectors 8 state.old }
    ensures lanes { (l : ℕ) → l < 4 → lane l state.new ≡ compress (lane l state.old) block.now }
    ensures shape { AreVectors 8 state.new }
{
    let words = schedule(block);
    let mut v = *state;
    'rounds: for turn in 0..8 {
        v = eight_steps(&same_group(&words, turn), v, turn);
    }
    add(state, &v);
}

/// Takes a block into each of four hash values: each its own.
pub(crate) fn compress_each(state: &mut [u32x4; 8], p: &[u8], q: &[u8], r: &[u8], s: &[u8])
    requires p { length p.now ≡ 64 }
    requires q { length q.now ≡ 64 }
    requires r { length r.now ≡ 64 }
    requires s { length s.now ≡ 64 }
    requires state { AreVectors 8 state.old }
    ensures first { lane 0 state.new ≡ compress (lane 0 state.old) p.now }
    ensures second { lane 1 state.new ≡ compress (lane 1 state.old) q.now }
    ensures third { lane 2 state.new ≡ compress (lane 2 state.old) r.now }
    ensures fourth { lane 3 state.new ≡ compress (lane 3 state.old) s.now }
    ensures shape { AreVectors 8 state.new }
{
    let mut words = [u32x4::splat(0); 64];
    load(&mut words, p, q, r, s);
    extend(&mut words);
    let mut v = *state;
    'rounds: for turn in 0..8 {
        v = eight_steps(&own_group(&words, turn), v, turn);
    }
    add(state, &v);
}

// Writes the words of each block to the first places of its lane.
fn load(words: &mut [u32x4; 64], p: &[u8], q: &[u8], r: &[u8], s: &[u8])
    requires p { length p.now ≡ 64 }
    requires q { length q.now ≡ 64 }
    requires r { length r.now ≡ 64 }
    requires s { length s.now ≡ 64 }
    requires shape { AreVectors 64 words.old }
    ensures first { HoldsBlock p.now (lane 0 words.new) }
    ensures second { HoldsBlock q.now (lane 1 words.new) }
    ensures third { HoldsBlock r.now (lane 2 words.new) }
    ensures fourth { HoldsBlock s.now (lane 3 words.new) }
    ensures shape { AreVectors 64 words.new }
{
    for i in 0..16 {
        words[i] = u32x4::from_array([
            word(p, 4 * i),
            word(q, 4 * i),
            word(r, 4 * i),
            word(s, 4 * i),
        ]);
    }
}

// Makes the words from 16 on of each lane's message schedule.
fn extend(words: &mut [u32x4; 64])
    requires { AreVectors 64 words.old }
    ensures lanes { (l : ℕ) → l < 4 → (b : List ℕ) → HoldsBlock b (lane l words.old)
        → HoldsSchedule b (lane l words.new) }
    ensures shape { AreVectors 64 words.new }
{
    for t in 16..64 {
        words[t] = next_word(words, t);
    }
}

// The word at `t` of each lane from those before it.
#[inline(always)]
fn next_word(words: &[u32x4; 64], t: usize) -> u32x4
    requires low { 16 ≤ t }
    requires high { t < 64 }
    requires shape { AreVectors 64 words.now }
    ensures { HasLanes result (λ l. next_word (lane l words.now) t) }
{
    small_sigma1(words[t - 2]) + words[t - 7] + small_sigma0(words[t - 15]) + words[t - 16]
}
