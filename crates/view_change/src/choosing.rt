//! The choice of the batch for a number.

ghost use Rattle.std.specs.Prelude.{◌≡◌, true, map, IfSome, IfNone};
ghost use Rattle.std.specs.List.{list_any};
ghost use Rattle.std.specs.Arc.{arc_value};
ghost use Rattle.protocol.specs.Replica.Selection.{null_batch};
ghost use Rattle.sha2.specs.Sha256.{sha256};
ghost use Rattle.wire_format.specs.Spelling.{bytes_before};
ghost use Rattle.wire_format.specs.Views.{batch_entry_data, view_change_data};
ghost use Rattle.view_change.specs.Filling.{StandsAt, NoneStandsAt};
ghost use Rattle.view_change.specs.Selecting as spec;
ghost use Rattle.view_change.specs.Sets.{sized, changes_by_sender, texts_of};

use crate::changes::{Change, Sizes};
use crate::rules::{may_be_null, may_stand_at};
use ordering::HashedBatch;
use pq_sets::is_less;
use std::sync::Arc;
use terms::{Digest, Number, View};
use wire::{BatchEntry, ViewChange};

fn is_entry_for(entry: &BatchEntry, number: Number, digest: &Digest) -> bool
    ensures { result ≡ spec.is_entry_for number.0 digest.now (batch_entry_data entry.now) }
{
    entry.number.0 == number.0 && entry.digest == *digest
}

// Whether the digest may stand at the number by the view of the entry.
fn is_entry_by(
    set: &[Change],
    sizes: Sizes,
    number: Number,
    digest: &Digest,
    entry: &BatchEntry,
) -> bool
    ensures { result ≡ spec.is_entry_by (sized sizes) (changes_by_sender set.now) number.0 digest.now
        (batch_entry_data entry.now) }
{
    is_entry_for(entry, number, digest) && may_stand_at(set, sizes, number, digest, entry.view.0)
}

// Whether the digest may stand at the number by the view of one of the entries.
fn any_stands(
    set: &[Change],
    sizes: Sizes,
    number: Number,
    digest: &Digest,
    entries: &[BatchEntry],
) -> bool
    ensures { result ≡ list_any (λ e. spec.is_entry_by (sized sizes) (changes_by_sender set.now) number.0 digest.now
        (batch_entry_data e)) entries.now }
{
    entries
        .iter()
        .any(|entry| is_entry_by(set, sizes, number, digest, entry))
}

#[tactic(auto, using(crate::proofs::Mapped::any_mapped))]
fn stands_by(
    set: &[Change],
    sizes: Sizes,
    number: Number,
    digest: &Digest,
    change: &ViewChange,
) -> bool
    ensures { result ≡ list_any (spec.is_entry_by (sized sizes) (changes_by_sender set.now) number.0 digest.now)
        (view_change_data change.now).pre_prepared }
{
    any_stands(set, sizes, number, digest, &change.pre_prepared)
}

/// Whether the digest may stand at the number by an entry of the view changes in `some`.
pub(crate) fn stands(
    set: &[Change],
    sizes: Sizes,
    number: Number,
    digest: &Digest,
    some: &[Change],
) -> bool
    ensures { result ≡ spec.stands_by_entry (sized sizes) (changes_by_sender set.now) number.0 digest.now
        (changes_by_sender some.now) }
{
    let [change, rest @ ..] = some else {
        return false;
    };
    if stands_by(set, sizes, number, digest, &change.change) {
        true
    } else {
        stands(set, sizes, number, digest, rest)
    }
}

// The latest view by which the digest may stand at the number, of those of the entries, else 0.
fn latest_in(
    set: &[Change],
    sizes: Sizes,
    number: Number,
    digest: &Digest,
    entries: &[BatchEntry],
) -> u64
    ensures { result ≡ spec.latest_in (sized sizes) (changes_by_sender set.now) number.0 digest.now
        (map batch_entry_data entries.now) }
{
    let mut latest = 0;
    for entry in entries {
        if is_entry_by(set, sizes, number, digest, entry) && latest < entry.view.0 {
            latest = entry.view.0;
        }
    }
    latest
}

// The same over the entries of the view changes in `some`.
fn latest_of(set: &[Change], sizes: Sizes, number: Number, digest: &Digest, some: &[Change]) -> u64
    ensures { result ≡ spec.latest_of (sized sizes) (changes_by_sender set.now) number.0 digest.now
        (changes_by_sender some.now) }
{
    let [change, rest @ ..] = some else {
        return 0;
    };
    let first = latest_in(set, sizes, number, digest, &change.change.pre_prepared);
    let below = latest_of(set, sizes, number, digest, rest);
    if below < first { first } else { below }
}

fn has_entry(entries: &[BatchEntry], number: Number, digest: &Digest) -> bool
    ensures { result ≡ list_any (λ e. spec.is_entry_for number.0 digest.now (batch_entry_data e)) entries.now }
{
    entries
        .iter()
        .any(|entry| is_entry_for(entry, number, digest))
}

#[tactic(auto, using(crate::proofs::Mapped::any_mapped))]
fn is_prepared_by(change: &ViewChange, number: Number, digest: &Digest) -> bool
    ensures { result ≡ list_any (spec.is_entry_for number.0 digest.now) (view_change_data change.now).prepared }
{
    has_entry(&change.prepared, number, digest)
}

fn is_prepared_in(set: &[Change], number: Number, digest: &Digest) -> bool
    ensures { result ≡ spec.is_prepared_in (changes_by_sender set.now) number.0 digest.now }
{
    let [change, rest @ ..] = set else {
        return false;
    };
    if is_prepared_by(&change.change, number, digest) {
        true
    } else {
        is_prepared_in(rest, number, digest)
    }
}

// Of two digests a prepared one goes first, else the lesser one.
fn precedes(set: &[Change], number: Number, digest: &Digest, other: &Digest) -> bool
    ensures { result ≡ spec.precedes (changes_by_sender set.now) number.0 digest.now other.now }
{
    if is_prepared_in(set, number, digest) {
        !is_prepared_in(set, number, other) || is_less(digest, other)
    } else {
        !is_prepared_in(set, number, other) && is_less(digest, other)
    }
}

// Before that, the one of the latest view.
fn outranks(set: &[Change], sizes: Sizes, number: Number, digest: &Digest, other: &Digest) -> bool
    ensures { result ≡ spec.outranks (sized sizes) (changes_by_sender set.now) number.0 digest.now other.now }
{
    let latest = latest_of(set, sizes, number, digest, set);
    let other_latest = latest_of(set, sizes, number, other, set);
    if other_latest < latest {
        true
    } else if latest < other_latest {
        false
    } else {
        precedes(set, number, digest, other)
    }
}

// Whether the one digest goes before the other at the number.
fn goes_before(
    set: &[Change],
    sizes: Sizes,
    number: Number,
    digest: &Digest,
    other: &Digest,
) -> bool
    ensures { result ≡ spec.goes_before (sized sizes) (changes_by_sender set.now) number.0 digest.now other.now }
{
    stands(set, sizes, number, digest, set)
        && (!stands(set, sizes, number, other, set) || outranks(set, sizes, number, digest, other))
}

/// The choice for the number: the first in order of the stored batches and the null batch, if it may stand there.
pub(crate) fn choose<'a>(
    set: &[Change],
    sizes: Sizes,
    view: View,
    number: Number,
    held: &'a [Arc<HashedBatch>],
    null: &'a Arc<HashedBatch>,
) -> Option<&'a Arc<HashedBatch>>
    requires set { spec.are_for view.0 (changes_by_sender set.now) (sized sizes) ≡ true }
    requires null { arc_value null.now ≡ null_batch }
    ensures some { IfSome result
        (λ b. StandsAt (sized sizes) view.0 (changes_by_sender set.now) (texts_of held.now) number.0
        (arc_value b.now)) }
    ensures none { IfNone result
        (NoneStandsAt (sized sizes) view.0 (changes_by_sender set.now) (texts_of held.now) number.0) }
{
    let mut best = null;
    for batch in held {
        if goes_before(set, sizes, number, &batch.digest(), &best.digest()) {
            best = batch;
        }
    }
    if stands(set, sizes, number, &best.digest(), set) || may_be_null(set, sizes, number) {
        Some(best)
    } else {
        None
    }
}
