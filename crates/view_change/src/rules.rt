//! The rules of a new view, over a set of view changes.

ghost use Rattle.std.specs.Prelude.{◌≡◌, ◌+◌, ◌*◌, ◌≤◌, ◌&&◌, ◌||◌, not, ◌==◌, nat_le, nat_lt, bytes_eq};
ghost use Rattle.std.specs.List.{list_all, list_any};
ghost use Rattle.protocol.specs.Replica.Selection as selection;
ghost use Rattle.wire_format.specs.Views.{view_change_data};
ghost use Rattle.view_change.specs.Sets.{sized, changes_by_sender, test_of};

use crate::changes::{Change, Rule, Sizes};
use terms::{Digest, Number, ReplicaId};
use wire::{BatchEntry, CheckpointEntry, ViewChange};

// Whether the view change passes.
#[tactic(auto, using(crate::proofs::Mapped::any_mapped, crate::proofs::Mapped::all_mapped))]
fn passes(rule: &Rule, change: &ViewChange) -> bool
    ensures { result ≡ test_of rule.now (view_change_data change.now) }
{
    match rule {
        Rule::Any => true,
        Rule::LowAtMost(start) => change.low.0 <= start.0,
        Rule::Lists(number, digest) => lists(&change.checkpoints, *number, digest),
        Rule::Agrees(number, view, digest) => {
            change.low.0 < number.0 && agrees(&change.prepared, *number, *view, digest)
        }
        Rule::Vouches(number, view, digest) => {
            vouches(&change.pre_prepared, *number, *view, digest)
        }
        Rule::Nothing(number) => change.low.0 < number.0 && has_none(&change.prepared, *number),
    }
}

fn lists(entries: &[CheckpointEntry], number: Number, root: &Digest) -> bool
    ensures { result ≡ list_any (λ e. (e.number.0 == number.0) && bytes_eq e.digest root.now) entries.now }
{
    entries.iter().any(|entry| entry.number.0 == number.0 && entry.digest == *root)
}

fn agrees(entries: &[BatchEntry], number: Number, view: u64, digest: &Digest) -> bool
    ensures { result ≡ list_all (λ e. not (e.number.0 == number.0) || nat_lt e.view.0 view
        || ((e.view.0 == view) && bytes_eq e.digest digest.now)) entries.now }
{
    entries.iter().all(|entry| {
        entry.number.0 != number.0
            || entry.view.0 < view
            || (entry.view.0 == view && entry.digest == *digest)
    })
}

fn vouches(entries: &[BatchEntry], number: Number, view: u64, digest: &Digest) -> bool
    ensures { result ≡ list_any (λ e. (e.number.0 == number.0) && bytes_eq e.digest digest.now
        && nat_le view e.view.0) entries.now }
{
    entries.iter().any(|entry| {
        entry.number.0 == number.0 && entry.digest == *digest && view <= entry.view.0
    })
}

fn has_none(entries: &[BatchEntry], number: Number) -> bool
    ensures { result ≡ list_all (λ e. not (e.number.0 == number.0)) entries.now }
{
    entries.iter().all(|entry| entry.number.0 != number.0)
}

// Whether the replica has a view change in the set, and its first one passes.
fn is_passed_by(set: &[Change], rule: &Rule, replica: ReplicaId) -> bool
    ensures { result ≡ selection.passes_by (test_of rule.now) (changes_by_sender set.now) replica.0 }
{
    let [change, rest @ ..] = set else {
        return false;
    };
    if change.sender.0 == replica.0 {
        passes(rule, &change.change)
    } else {
        is_passed_by(rest, rule, replica)
    }
}

// How many different replicas have a view change in the set that passes.
fn count(set: &[Change], sizes: Sizes, rule: &Rule) -> u8
    ensures count { result ≡ selection.count_in (sized sizes) (test_of rule.now) (changes_by_sender set.now) }
    ensures few { result ≤ 10 }
{
    let mut count = 0;
    for replica in 0..3 * sizes.faults + 1 {
        if is_passed_by(set, rule, ReplicaId(replica)) {
            count += 1;
        }
    }
    count
}

/// Whether a quorum passes.
pub(crate) fn has_quorum(set: &[Change], sizes: Sizes, rule: &Rule) -> bool
    ensures { result ≡ selection.is_quorum (sized sizes)
        (selection.count_in (sized sizes) (test_of rule.now) (changes_by_sender set.now)) }
{
    2 * sizes.faults + 1 <= count(set, sizes, rule)
}

// Whether f + 1 pass.
fn has_weak_quorum(set: &[Change], sizes: Sizes, rule: &Rule) -> bool
    ensures { result ≡ selection.is_weak_quorum (sized sizes)
        (selection.count_in (sized sizes) (test_of rule.now) (changes_by_sender set.now)) }
{
    sizes.faults + 1 <= count(set, sizes, rule)
}

/// Whether a new view may start at this checkpoint.
pub(crate) fn is_start(set: &[Change], sizes: Sizes, start: Number, root: &Digest) -> bool
    ensures { result ≡ selection.is_start (sized sizes) (changes_by_sender set.now) start.0 root.now }
{
    has_quorum(set, sizes, &Rule::LowAtMost(start))
        && has_weak_quorum(set, sizes, &Rule::Lists(start, *root))
}

/// Whether a digest may stand at the number by the view.
pub(crate) fn may_stand_at(
    set: &[Change],
    sizes: Sizes,
    number: Number,
    digest: &Digest,
    view: u64,
) -> bool
    ensures { result ≡ selection.may_stand_at (sized sizes) (changes_by_sender set.now) number.0 digest.now view }
{
    has_quorum(set, sizes, &Rule::Agrees(number, view, *digest))
        && has_weak_quorum(set, sizes, &Rule::Vouches(number, view, *digest))
}

/// Whether the null batch may stand at the number.
pub(crate) fn may_be_null(set: &[Change], sizes: Sizes, number: Number) -> bool
    ensures { result ≡ selection.may_be_null (sized sizes) (changes_by_sender set.now) number.0 }
{
    has_quorum(set, sizes, &Rule::Nothing(number))
}
