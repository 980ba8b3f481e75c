//! Torn tails, and damage that is told from them.

use crate::disks::{ENDS, LOG, changed, is_damaged, reads};
use std::alloc::Global;

// The texts of the groups, and how many bytes of them the first groups have.
static TEXTS: [u8; 16] = [0, 0, 0, 1, b'a', 0, 0, 0, 3, b'b', b'c', b'd', 0, 0, 0, 0];

static TEXT_ENDS: [usize; 4] = [0, 12, 16, 16];

// How many groups end by this place.
fn groups_by(place: usize) -> usize {
    ENDS[1..].iter().filter(|end| **end <= place).count()
}

// Whether the first groups are read of these bytes, and what is behind them is cut.
fn reads_groups(alloc: Global, bytes: &[u8], groups: usize) -> bool {
    groups < 4 && reads(alloc, bytes, &TEXTS[..TEXT_ENDS[groups]], ENDS[groups])
}

// A file may end at any byte behind its header.
fn cuts_at_each_byte(alloc: Global) -> bool {
    (32..133).all(|len| reads_groups(alloc, &LOG[..len], groups_by(len)))
}

// A torn group may be garbled at any byte, also if it has all of them.
fn cuts_what_is_garbled(alloc: Global) -> bool {
    (104..132).all(|place| reads_groups(alloc, &changed(alloc, &LOG, place), 2))
        && (72..104).all(|place| reads_groups(alloc, &changed(alloc, &LOG[..104], place), 1))
        && (32..72).all(|place| reads_groups(alloc, &changed(alloc, &LOG[..72], place), 0))
}

// A sound group behind any changed byte is told.
fn tells_damage(alloc: Global) -> bool {
    (72..104).all(|place| is_damaged(alloc, &changed(alloc, &LOG, place), (72, 2, 104)))
        && (32..72).all(|place| is_damaged(alloc, &changed(alloc, &LOG, place), (32, 0, 72)))
}

#[test]
fn a_torn_tail_is_cut(rt: HostRuntime) {
    assert!(rt; cuts_at_each_byte(rt.alloc()));
    assert!(rt; cuts_what_is_garbled(rt.alloc()));
}

#[test]
fn damage_is_refused_by_its_place(rt: HostRuntime) {
    assert!(rt; tells_damage(rt.alloc()));
}

// The header, and then the second group alone; and a gap of more than one window of zeros before it.
fn tells_gaps(alloc: Global) -> bool {
    let mut near = Vec::new(alloc);
    let mut far = Vec::new(alloc);
    let Ok(zeros) = vec![in alloc; 0u8; 70_000] else {
        return false;
    };
    let near_is_made = near.extend_from_slice(&LOG[..32]).is_ok()
        && near.extend_from_slice(&LOG[72..]).is_ok();
    let far_is_made = far.extend_from_slice(&LOG[..72]).is_ok()
        && far.extend_from_slice(zeros.as_slice()).is_ok()
        && far.extend_from_slice(&LOG[72..]).is_ok();
    near_is_made
        && far_is_made
        && is_damaged(alloc, near.as_slice(), (32, 0, 32))
        && is_damaged(alloc, far.as_slice(), (72, 2, 70_072))
}

#[test]
fn a_gap_is_refused_by_its_place(rt: HostRuntime) {
    assert!(rt; tells_gaps(rt.alloc()));
}
