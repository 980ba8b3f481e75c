//! Selections for view 3 among four replicas, and among seven, with a checkpoint each 16 batches.

use crate::answers::holds;
use crate::views::frames::{add, batch};
use ordering::HashedBatch;
use sha2::Sha256;
use std::alloc::{AllocError, Global};
use std::sync::Arc;
use terms::{Digest, NoMemory, Number, ReplicaId, View};
use test_bytes::Verdict;
use view_change::{Change, Selection, Sizes, is_set, select};
use wire::{BatchEntry, CheckpointEntry, ViewChange};

const FOUR: Sizes = Sizes {
    faults: 1,
    period: 16,
};

const SEVEN: Sizes = Sizes {
    faults: 2,
    period: 16,
};

const ROOT: Digest = [7; 32];

// Checkpoints, and batches as prepared and as logged: each a number, a batch's byte and a view.
type Said<'a> = (&'a [u64], &'a [(u64, u8, u64)], &'a [(u64, u8, u64)]);

// Of the batch of this byte.
fn digest_of(byte: u8) -> Digest {
    <Sha256 as sha2::Digest>::digest(&[byte])
}

fn put_entries(rows: &[(u64, u8, u64)], out: &mut Vec<BatchEntry>) -> Result<(), AllocError> {
    for (number, byte, view) in rows {
        out.push(BatchEntry {
            number: Number(*number),
            digest: digest_of(*byte),
            view: View(*view),
        })?;
    }
    Ok(())
}

fn put_checkpoints(kept: &[u64], out: &mut Vec<CheckpointEntry>) -> Result<(), AllocError> {
    for number in kept {
        out.push(CheckpointEntry {
            number: Number(*number),
            digest: ROOT,
        })?;
    }
    Ok(())
}

fn fill((kept, prepared, logged): Said<'_>, change: &mut ViewChange) -> Result<(), AllocError> {
    put_checkpoints(kept, &mut change.checkpoints)?;
    put_entries(prepared, &mut change.prepared)?;
    put_entries(logged, &mut change.pre_prepared)
}

fn change(alloc: Global, sender: u8, said: Said<'_>) -> Result<Change, AllocError> {
    let mut change = ViewChange {
        view: View(3),
        low: Number(0),
        checkpoints: Vec::new(alloc),
        prepared: Vec::new(alloc),
        pre_prepared: Vec::new(alloc),
    };
    fill(said, &mut change)?;
    Ok(Change {
        sender: ReplicaId(sender),
        change,
    })
}

fn put_changes(alloc: Global, rows: &[Said<'_>], set: &mut Vec<Change>) -> Result<(), AllocError> {
    for (sender, row) in rows.iter().enumerate() {
        add(set, change(alloc, (sender % 16) as u8, *row))?;
    }
    Ok(())
}

fn changes(alloc: Global, rows: &[Said<'_>]) -> Result<Vec<Change>, AllocError> {
    let mut set = Vec::new(alloc);
    put_changes(alloc, rows, &mut set)?;
    Ok(set)
}

// Those of the bytes 1 to 3.
fn batches(alloc: Global) -> Result<Vec<Arc<HashedBatch>>, AllocError> {
    let mut held = Vec::new(alloc);
    for byte in 1..4 {
        add(&mut held, batch(alloc, byte))?;
    }
    Ok(held)
}

// Whether the selection starts there, and has these batches.
fn is_selected(selection: &Selection, start: u64, bytes: &[u8]) -> bool {
    selection.start.0 == start
        && selection.root == ROOT
        && selection.batches.len() == bytes.len()
        && selection
            .batches
            .iter()
            .zip(bytes)
            .all(|(batch, byte)| batch.text() == [*byte].as_slice())
}

const NOTHING: Said<'static> = (&[0], &[], &[]);

const ONE: Said<'static> = (&[0], &[(1, 1, 0)], &[(1, 1, 0)]);

const LIE: Said<'static> = (&[0], &[(1, 9, 0)], &[(1, 9, 0)]);

const LATER: Said<'static> = (&[0], &[], &[(1, 1, 0), (1, 2, 1)]);

// The null batch was prepared in view 1, after another batch was logged in view 0.
const NULLED: Said<'static> = (&[0], &[(1, 0, 1)], &[(1, 0, 1), (1, 1, 0)]);

const HIGHER: Said<'static> = (&[0, 16], &[], &[]);

// A start, and the bytes of the batches after it.
type Start = (u64, &'static [u8]);

// What is said, and what is selected from it.
type Row = (&'static [Said<'static>], Option<Start>);

static ROWS: [Row; 6] = [
    // Over one lie and two true view changes nothing is selected.
    (&[ONE, ONE, LIE], None),
    // With a third true one the batch is that was prepared.
    (&[ONE, ONE, ONE, LIE], Some((0, &[1]))),
    // If nothing was prepared there are no batches.
    (&[NOTHING, NOTHING, NOTHING], Some((0, &[]))),
    // A gap below a prepared number has the null batch.
    (
        &[
            (&[0], &[(2, 3, 0)], &[(2, 3, 0)]),
            (&[0], &[(2, 3, 0)], &[(2, 3, 0)]),
            NOTHING,
        ],
        Some((0, &[0, 3])),
    ),
    // The greatest start that f + 1 list goes first.
    (&[HIGHER, HIGHER, NOTHING], Some((16, &[]))),
    // Too few list it.
    (&[HIGHER, NOTHING, NOTHING], Some((0, &[]))),
];

// Two of seven lie.
static ROWS_OF_SEVEN: [Row; 7] = [
    // Over four true view changes and two lies nothing is selected.
    (&[ONE, ONE, ONE, ONE, LIE, LIE], None),
    // With a fifth true one the batch is that was prepared.
    (&[ONE, ONE, ONE, ONE, ONE, LIE, LIE], Some((0, &[1]))),
    // Three have logged it, and two don't speak against it.
    (
        &[ONE, ONE, ONE, NOTHING, NOTHING, LIE, LIE],
        Some((0, &[1])),
    ),
    // Too few have logged it.
    (&[ONE, ONE, NOTHING, NOTHING, NOTHING], None),
    // Two can't make a start, a third one can.
    (&[HIGHER, HIGHER, NOTHING, NOTHING, NOTHING], Some((0, &[]))),
    (&[HIGHER, HIGHER, HIGHER, NOTHING, NOTHING], Some((16, &[]))),
    // The new view of view 1 proposed the null batch, over view changes that had nothing prepared. The sets of two
    // lies about view 0 don't count against it.
    (
        &[NULLED, NULLED, NULLED, NULLED, NULLED, LIE, LIE],
        Some((0, &[0])),
    ),
];

// Of two batches that may stand the one of the later view goes first.
static OF_LATER_VIEW: [Row; 1] = [(&[ONE, LATER, LATER, LATER], Some((0, &[2])))];

fn is_wanted(selected: &Option<Selection>, wanted: Option<Start>) -> bool {
    match (selected, wanted) {
        (None, None) => true,
        (Some(selection), Some((start, bytes))) => is_selected(selection, start, bytes),
        _ => false,
    }
}

fn selects(
    alloc: Global,
    sizes: Sizes,
    set: &[Change],
    held: &[Arc<HashedBatch>],
    wanted: Option<Start>,
) -> Verdict {
    if !is_set(set, sizes, View(3)) {
        return Ok(wanted.is_none());
    }
    match select(alloc, set, sizes, View(3), held) {
        Ok(selected) => {
            let is_right = is_wanted(&selected, wanted);
            drop(selected);
            Ok(is_right)
        }
        Err(NoMemory) => Err(NoMemory),
    }
}

fn selects_of(
    alloc: Global,
    sizes: Sizes,
    (said, wanted): Row,
    held: &[Arc<HashedBatch>],
) -> Verdict {
    match changes(alloc, said) {
        Ok(set) => {
            let verdict = selects(alloc, sizes, &set, held, wanted);
            drop(set);
            verdict
        }
        Err(AllocError) => Err(NoMemory),
    }
}

fn selects_rows(alloc: Global, sizes: Sizes, rows: &[Row], held: &[Arc<HashedBatch>]) -> Verdict {
    for row in rows {
        match selects_of(alloc, sizes, *row, held) {
            Ok(true) => {}
            other => return other,
        }
    }
    Ok(true)
}

fn are_selected(alloc: Global, sizes: Sizes, rows: &[Row]) -> Verdict {
    match batches(alloc) {
        Ok(held) => {
            let verdict = selects_rows(alloc, sizes, rows, &held);
            drop(held);
            verdict
        }
        Err(AllocError) => Err(NoMemory),
    }
}

#[test]
fn selections_follow_the_rules(rt: HostRuntime) {
    holds(&rt, are_selected(rt.alloc(), FOUR, &ROWS));
    holds(&rt, are_selected(rt.alloc(), SEVEN, &ROWS_OF_SEVEN));
}

#[test]
fn the_later_view_goes_first(rt: HostRuntime) {
    holds(&rt, are_selected(rt.alloc(), FOUR, &OF_LATER_VIEW));
}
