//! The check of a new view.

ghost use Rattle.std.specs.Prelude.{◌≡◌, ◌≢◌, ◌+◌, ◌++◌, ◌^◌, ◌<◌, ◌==◌, ◌&&◌, nat_le, nat_lt, true, false, map, length, IfOk, IfErr, OnOk, Some, None};
ghost use Rattle.protocol.specs.System.Configuration as configuration;
ghost use Rattle.protocol.specs.Replica.Selection as selection;
ghost use Rattle.protocol.specs.System.Trace.{Has};
ghost use Rattle.wire_format.specs.Views.{batch_text, new_view_data};
ghost use Rattle.view_change.specs.Checking.{new_view_refusal, refusal_by_rules};
ghost use Rattle.view_change.specs.ReceivedView.{judging_configuration};
ghost use Rattle.view_change.specs.Refusing as spec;
ghost use Rattle.view_change.specs.Selecting as selecting;
ghost use Rattle.view_change.specs.Sets.{all_present, changes_by_sender, signed_changes, sized};

use crate::bounds::{END, are_for, is_ascending, is_number};
use crate::changes::{Change, Rule, Sizes};
use crate::choosing::stands;
use crate::fault::NewViewFault;
use crate::received::Received;
use crate::rules::{has_quorum, is_start, may_be_null};
use crate::selecting::largest_of;
use sha2::{Digest as _, Sha256};
use std::alloc::Global;
use terms::{NoMemory, Number, ReplicaId, View};
use wire::{Batch, NewView};

fn is_null(text: &[u8]) -> bool
    ensures { result ≡ selection.is_null text.now }
{
    text == [0].as_slice()
}

// Whether the batch may stand at the number.
fn may_stand(set: &[Change], sizes: Sizes, view: View, number: Number, batch: &Batch) -> bool
    requires { selecting.are_for view.0 (changes_by_sender set.now) (sized sizes) ≡ true }
    ensures { result ≡ selection.may_stand (sized sizes) view.0
        (changes_by_sender set.now) number.0 batch.now.text.items }
{
    let digest = Sha256::digest(&batch.text);
    let supported = stands(set, sizes, number, &digest, set);
    let null = is_null(&batch.text);
    supported || (null && may_be_null(set, sizes, number))
}

// Whether each batch may stand at its number, from the given one on.
fn may_all_stand(set: &[Change], sizes: Sizes, view: View, number: u64, batches: &[Batch]) -> bool
    requires set { selecting.are_for view.0 (changes_by_sender set.now) (sized sizes) ≡ true }
    requires room { number + length batches.now < 2 ^ 63 }
    ensures { result ≡ selection.may_all_stand (sized sizes) view.0 (changes_by_sender set.now) number
        (map batch_text batches.now) }
{
    let [batch, rest @ ..] = batches else {
        return true;
    };
    if may_stand(set, sizes, view, Number(number), batch) {
        may_all_stand(set, sizes, view, number + 1, rest)
    } else {
        false
    }
}

// Whether the start and the batches satisfy the rules.
fn meets(set: &[Change], sizes: Sizes, new: &NewView) -> bool
    requires { selecting.are_for new.now.view.0 (changes_by_sender set.now) (sized sizes) ≡ true }
    ensures { result ≡ selecting.meets (sized sizes) new.now.view.0
        (changes_by_sender set.now) new.now.start.0 new.now.root
        (map batch_text new.now.batches.items) }
{
    if new.start.0 >= END {
        return false;
    }
    let start = new.start.0;
    if !is_start(set, sizes, new.start, &new.root) {
        return false;
    }
    let largest = largest_of(set, start + 2 * u64::from(sizes.period));
    let end = if largest < start { start } else { largest };
    if new.batches.len() as u64 != end - start {
        return false;
    }
    may_all_stand(set, sizes, new.view, start + 1, &new.batches)
}

// Whether the new view passes over the set of its view changes, except for their number.
fn passes(set: &[Change], sizes: Sizes, new: &NewView) -> bool
    ensures { result ≡ spec.satisfies_rules (sized sizes) (changes_by_sender set.now) (new_view_data new.now) }
{
    is_ascending(set) && are_for(set, sizes, new.view) && meets(set, sizes, new)
}

fn refusal_over(set: &[Change], sizes: Sizes, new: &NewView) -> Option<NewViewFault>
    ensures { result ≡ spec.refusal_over (sized sizes) (changes_by_sender set.now) (new_view_data new.now) }
{
    if !has_quorum(set, sizes, &Rule::Any) {
        return Some(NewViewFault::TooFew);
    }
    if !passes(set, sizes, new) {
        return Some(NewViewFault::NotSelected);
    }
    None
}

// Appends the view changes that the frames spell, and returns whether each of them is signed. A view change that was
// received before isn't verified again.
fn open_changes(
    alloc: Global,
    received: &Received,
    frames: &[Vec<u8>],
    changes: &mut Vec<Change>,
) -> Result<bool, NoMemory>
    ensures all { IfOk result (λ all. all ≡ true → all_present (changes_by_sender changes.new.items)
        ≡ all_present (changes_by_sender changes.old.items)
        ++ signed_changes (judging_configuration received.now) frames.now) }
    ensures some { IfOk result (λ all. all ≡ false
        → Has (λ o. o ≡ None) (signed_changes (judging_configuration received.now) frames.now)) }
{
    let [frame, rest @ ..] = frames else {
        return Ok(true);
    };
    match received.open(alloc, frame)? {
        Some(change) => {
            changes.push(change)?;
            open_changes(alloc, received, rest, changes)
        }
        None => Ok(false),
    }
}

// Why the rules refuse the new view.
fn refusal_by_rules(
    alloc: Global,
    received: &Received,
    new: &NewView,
) -> Result<Option<NewViewFault>, NoMemory>
    ensures { IfOk result (λ fault. fault
        ≡ refusal_by_rules (judging_configuration received.now) (new_view_data new.now)) }
{
    let mut set = Vec::new(alloc);
    if !open_changes(alloc, received, &new.changes, &mut set)? {
        return Ok(Some(NewViewFault::BadSignature));
    }
    Ok(refusal_over(&set, received.sizes(), new))
}

fn is_from_primary(sizes: Sizes, sender: ReplicaId, view: View) -> bool
    ensures { result ≡ (sender.0 == configuration.primary (sized sizes) view.0) }
{
    u64::from(sender.0) == view.0 % u64::from(3 * sizes.faults + 1)
}

fn is_later(view: View, target: View, new: View) -> bool
    ensures { result ≡ (nat_lt view.0 new.0 && nat_le target.0 new.0) }
{
    view.0 < new.0 && target.0 <= new.0
}

/// Checks a new view that a replica received from the sender. The new view's own signature is verified already. The
/// replica's last new view is of `view`, and its last view change is for `target`, else 0.
///
/// It is Ok exactly if the new view is from the primary of its view, its view is above `view`, at least `target` and
/// below 2^48, and the rules hold of its view changes, its start and its batches.
///
/// # Errors
///
/// The first refusal that applies, in the order of [`NewViewFault`], and NoMemory if memory runs out.
pub fn check_new_view(
    alloc: Global,
    received: &Received,
    view: View,
    target: View,
    sender: ReplicaId,
    new: &NewView,
) -> Result<(), NewViewFault>
    ensures ok { OnOk result (new_view_refusal (judging_configuration received.now) view.0 target.0 sender.0
        (new_view_data new.now) ≡ None) }
    ensures refused { IfErr result (λ e. e ≢ NewViewFault.NoMemory
        → new_view_refusal (judging_configuration received.now) view.0 target.0 sender.0 (new_view_data new.now)
        ≡ Some e) }
{
    if !is_from_primary(received.sizes(), sender, new.view) {
        return Err(NewViewFault::UnknownSender);
    }
    if !is_later(view, target, new.view) || !is_number(new.view.0) {
        return Err(NewViewFault::WrongView);
    }
    match refusal_by_rules(alloc, received, new)? {
        Some(fault) => Err(fault),
        None => Ok(()),
    }
}
