//! The bounds of a view change.

ghost use Rattle.std.specs.Prelude.{◌≡◌, ◌+◌, ◌%◌, ◌^◌, ◌≤◌, ◌<◌, ◌&&◌, ◌==◌, nat_le, nat_lt};
ghost use Rattle.std.specs.List.{list_all};
ghost use Rattle.protocol.specs.System.Configuration as configuration;
ghost use Rattle.protocol.specs.Replica.Selection as selection;
ghost use Rattle.wire_format.specs.Views.{batch_entry_data, checkpoint_entry_data, view_change_data};
ghost use Rattle.view_change.specs.Bounds as bounds;
ghost use Rattle.view_change.specs.Selecting.{are_for};
ghost use Rattle.view_change.specs.Sets.{changes_by_sender, sized};

use crate::changes::{Change, Sizes};
use terms::View;
use wire::{BatchEntry, CheckpointEntry, ViewChange};

/// Views and numbers end below this.
pub(crate) const END: u64 = 1 << 48;

/// Whether the number is below the end of views and numbers.
pub(crate) fn is_number(number: u64) -> bool
    ensures { result ≡ configuration.is_number number }
{
    number < END
}

fn are_entries_within(entries: &[BatchEntry], view: u64, low: u64, high: u64) -> bool
    ensures { result ≡ list_all (λ e. nat_lt e.view.0 view && nat_lt low e.number.0 && nat_le e.number.0 high
        && configuration.is_number e.number.0) entries.now }
{
    entries.iter().all(|entry| {
        entry.view.0 < view
            && low < entry.number.0
            && entry.number.0 <= high
            && entry.number.0 < END
    })
}

fn are_checkpoints_within(entries: &[CheckpointEntry], low: u64, high: u64, period: u64) -> bool
    requires { 1 ≤ period }
    ensures { result ≡ list_all (λ e. nat_le low e.number.0 && nat_le e.number.0 high && (e.number.0 % period == 0)
        && configuration.is_number e.number.0) entries.now }
{
    entries.iter().all(|entry| {
        low <= entry.number.0
            && entry.number.0 <= high
            && entry.number.0 % period == 0
            && entry.number.0 < END
    })
}

#[tactic(auto, using(crate::proofs::Mapped::all_mapped))]
fn are_lists_within(change: &ViewChange, sizes: Sizes) -> bool
    requires { change.now.low.0 < 2 ^ 48 }
    ensures { result ≡ bounds.are_lists_within (sized sizes) (view_change_data change.now) }
{
    let period = u64::from(sizes.period);
    let view = change.view.0;
    let low = change.low.0;
    let high = low + 2 * period;
    are_entries_within(&change.prepared, view, low, high)
        && are_entries_within(&change.pre_prepared, view, low, high)
        && are_checkpoints_within(&change.checkpoints, low, high, period)
}

/// Whether a view change is within its bounds.
pub(crate) fn is_within(change: &ViewChange, sizes: Sizes) -> bool
    ensures { result ≡ selection.is_within (sized sizes) (view_change_data change.now) }
{
    is_number(change.view.0) && is_number(change.low.0) && are_lists_within(change, sizes)
}

/// Whether each view change is for the view and within its bounds.
pub(crate) fn are_for(set: &[Change], sizes: Sizes, view: View) -> bool
    ensures { result ≡ are_for view.0 (changes_by_sender set.now) (sized sizes) }
{
    let [change, rest @ ..] = set else {
        return true;
    };
    if change.change.view == view && is_within(&change.change, sizes) {
        are_for(rest, sizes, view)
    } else {
        false
    }
}

/// Whether each sender is above the one before.
pub(crate) fn is_ascending(set: &[Change]) -> bool
    ensures { result ≡ selection.ascending (changes_by_sender set.now) }
{
    let [first, rest @ ..] = set else {
        return true;
    };
    let [second, ..] = rest else {
        return true;
    };
    if first.sender.0 < second.sender.0 {
        is_ascending(rest)
    } else {
        false
    }
}

/// Whether a selection for the view may be made over the view changes: each sender is above the one before, and each
/// view change is for the view and within its bounds.
pub fn is_set(set: &[Change], sizes: Sizes, view: View) -> bool
    ensures { result ≡ (selection.ascending (changes_by_sender set.now) && are_for view.0 (changes_by_sender set.now)
        (sized sizes)) }
{
    is_ascending(set) && are_for(set, sizes, view)
}
