//! The view changes that a replica stores.

ghost use Rattle.std.specs.Prelude.{◌≡◌, ◌≢◌, ℕ, ◌+◌, ◌*◌, ◌++◌, ◌∷◌, [], ◌≤◌, length, true, None, Some, nat_lt, option_map, replicate, IfOk, IfErr, OnOk, OnErr, MatchOption, IsTrue, IsFalse};
ghost use Rattle.std.specs.Option.{option_map_or};
ghost use Rattle.protocol.specs.Replica.Selection as selection;
ghost use Rattle.protocol.specs.System.Trace.{Has};
ghost use Rattle.view_change.specs.Finding as finding;
ghost use Rattle.view_change.specs.ReceivedData as spec;
ghost use Rattle.view_change.specs.ReceivedData.{HeldData, IsHeldSet, IsJoined, frames_for, held_of, later_views, pairs_for};
ghost use Rattle.view_change.specs.ReceivedView.{AreReceived, judging_configuration, held_as, held_by, held_data, ViewChangeIsAdded, IsFrameAdded, IsHeldIn};
ghost use Rattle.view_change.specs.Selecting.{are_for};
ghost use Rattle.view_change.specs.Sets.{change_pair, changes_by_sender, sized};
ghost use Rattle.wire_format.specs.Views.{texts_of, view_change_data};

use crate::bounds::{is_number, is_within};
use crate::carried::open_change;
use crate::change_fault::ChangeFault;
use crate::changes::{Change, SignedChange, Sizes};
use crate::copying::{copy_change, copy_changes, copy_frames};
use signing::PublicKeys;
use std::alloc::Global;
use std::marker::Model;
use terms::{NoMemory, ReplicaId, View};

/// The latest view change of each replica, also of this one, with its frame. There is at most one of each of the up to
/// ten replicas. So they take at most ten times the 262,144 bytes of a view change's frame and its body, whatever liars
/// send.
#[derive(Drop)]
pub struct Received {
    keys: PublicKeys,
    sizes: Sizes,
    held: Vec<Option<SignedChange>>,
}

impl Model for Received {
    ghost use Rattle.view_change.specs.ReceivedView.{ReceivedState, received_state, AreReceived};

    ghost Value = { ReceivedState };

    ghost view = { received_state };

    ghost invariant = { λ r. AreReceived (received_state r) };
}

impl Received {
    /// No view changes. The public keys are the configuration's.
    ///
    /// # Errors
    ///
    /// NoMemory if memory runs out.
    pub fn new(alloc: Global, keys: PublicKeys, sizes: Sizes) -> Result<Received, NoMemory>
        ensures { IfOk result (λ r. r ≡ record {
          publics = keys;
          sizes = sizes;
          held = replicate (3 * sizes.faults + 1) None;
        }) }
    {
        let held = no_changes(alloc, 3 * sizes.faults + 1)?;
        Ok(Received { keys, sizes, held })
    }

    /// Takes the view change that the bytes spell, at a replica that was last active in the view.
    ///
    /// # Errors
    ///
    /// The first refusal that applies, in the order of [`ChangeFault`], and NoMemory if memory runs out. Nothing is
    /// taken then.
    pub fn add(&mut self, alloc: Global, view: View, bytes: &[u8]) -> Result<(), ChangeFault>
        ensures ok { OnOk result (IsFrameAdded self.old view.0 bytes.now self.new) }
        ensures refused { IfErr result (λ e. e ≢ ChangeFault.NoMemory
            → spec.refusal_of_frame (judging_configuration self.old) view.0 self.old.held bytes.now ≡ Some e) }
        ensures err { OnErr result (self.new ≡ self.old) }
    {
        let Some(change) = self.open(alloc, bytes)? else {
            return Err(ChangeFault::BadSignature);
        };
        self.add_signed(alloc, view, change, bytes)
    }

    /// Takes a view change whose signature is verified: the replica's own, or one that it received in this frame.
    ///
    /// # Errors
    ///
    /// The first refusal that applies, in the order of [`ChangeFault`], never the signature, and NoMemory if memory
    /// runs out. Nothing is taken then.
    pub fn add_signed(
        &mut self,
        alloc: Global,
        view: View,
        change: Change,
        bytes: &[u8],
    ) -> Result<(), ChangeFault>
        requires { selection.signed_change (judging_configuration self.old) bytes.now ≡ Some (change_pair change) }
        ensures ok { OnOk result (ViewChangeIsAdded self.old view.0 (held_as change bytes.now) self.new) }
        ensures refused { IfErr result (λ e. e ≢ ChangeFault.NoMemory
            → spec.view_change_refusal (judging_configuration self.old) view.0 self.old.held (change_pair change)
            ≡ Some e) }
        ensures err { OnErr result (self.new ≡ self.old) }
    {
        if let Some(fault) = self.refusal(view, &change) {
            return Err(fault);
        }
        let signed = in_frame(alloc, change, bytes)?;
        let sender = usize::from(signed.change.sender.0);
        self.held[sender] = Some(signed);
        Ok(())
    }

    /// Tells a proof of each stored view change whose it is, and that its sender signed its frame.
    pub fn note_held(&self)
        ensures { AreReceived self.now }
    {
        let _sizes = self.sizes;
    }

    /// How many replicas may be faulty, and the number of batches from one checkpoint to the next.
    pub fn sizes(&self) -> Sizes
        ensures { result ≡ self.now.sizes }
    {
        self.sizes
    }

    /// The frame of the replica's latest view change.
    pub fn frame_of(&self, sender: ReplicaId) -> Option<&[u8]>
        ensures { option_map (λ bytes. bytes.now) result ≡ option_map (λ h. h.frame) (held_of self.now.held sender.0) }
    {
        match self.held.get(usize::from(sender.0)) {
            Some(Some(signed)) => Some(signed.frame.as_slice()),
            _ => None,
        }
    }

    /// Whether a view change is stored with this frame. Takes no memory.
    pub fn has_frame(&self, bytes: &[u8]) -> bool
        ensures held { IsTrue result → (h : HeldData) × IsHeldIn self.now bytes.now h }
        ensures none { IsFalse result → (h : HeldData) → Has (λ o. o ≡ Some h) self.now.held → h.frame ≢ bytes.now }
    {
        held_in(&self.held, bytes).is_some()
    }

    /// The view change that the bytes spell, if its sender is a replica and signed it. A stored one isn't verified
    /// again. NoMemory if memory runs out.
    pub(crate) fn open(&self, alloc: Global, bytes: &[u8]) -> Result<Option<Change>, NoMemory>
        ensures { IfOk result (λ o. option_map change_pair o
            ≡ selection.signed_change (judging_configuration self.now) bytes.now) }
    {
        match held_in(&self.held, bytes) {
            Some(change) => Ok(Some(copy_change(alloc, change)?)),
            None => open_change(alloc, &self.keys, self.sizes, bytes),
        }
    }

    /// The least of the views above the target that the latest view changes of other replicas are for. None if these
    /// replicas are fewer than f + 1.
    pub fn joined_view(&self, me: ReplicaId, target: View) -> Option<View>
        ensures { MatchOption result (length (later_views me.0 target.0 self.now.held) ≤ self.now.sizes.faults)
            (λ view. IsJoined self.now.sizes.faults (later_views me.0 target.0 self.now.held) view.0) }
    {
        if count_later(&self.held, me, target) <= usize::from(self.sizes.faults) {
            return None;
        }
        least_later(&self.held, me, target)
    }

    /// The view changes for the view, ascending by their senders, for a selection over them. NoMemory if memory runs
    /// out.
    pub fn changes_for(&self, alloc: Global, view: View) -> Result<Vec<Change>, NoMemory>
        ensures are { IfOk result (λ changes. changes_by_sender changes.items ≡ pairs_for view.0 self.now.held) }
        ensures order { IfOk result (λ changes. selection.ascending (changes_by_sender changes.items) ≡ true) }
        ensures for_it { IfOk result (λ changes. are_for view.0 (changes_by_sender changes.items) (sized self.now.sizes)
            ≡ true) }
    {
        copy_changes(alloc, &self.held, view)
    }

    /// The frames of the view changes for the view, in the same order. NoMemory if memory runs out.
    pub fn frames_for(&self, alloc: Global, view: View) -> Result<Vec<Vec<u8>>, NoMemory>
        ensures are { IfOk result (λ frames. texts_of frames.items ≡ frames_for view.0 self.now.held) }
        ensures set { IsHeldSet (judging_configuration self.now) view.0 self.now.held }
    {
        copy_frames(alloc, &self.held, view)
    }

    /// The reason for which a replica that was last active in the view refuses the view change, if there is one: the
    /// first that applies, in the order of [`ChangeFault`], never the signature.
    pub fn refusal(&self, view: View, change: &Change) -> Option<ChangeFault>
        ensures { result ≡ spec.view_change_refusal (judging_configuration self.now) view.0 self.now.held
            (change_pair change.now) }
    {
        let new = change.change.view;
        if new.0 <= view.0 || !is_number(new.0) {
            return Some(ChangeFault::WrongView);
        }
        if !is_within(&change.change, self.sizes) {
            return Some(ChangeFault::OutOfBounds);
        }
        if !self.is_newer(change) {
            return Some(ChangeFault::Duplicate);
        }
        None
    }

    // Whether no view change of the sender that is as late is stored.
    fn is_newer(&self, change: &Change) -> bool
        ensures { result ≡ option_map_or (λ h. nat_lt h.change.view change.now.change.view.0)
            (held_of self.now.held change.now.sender.0) true }
    {
        match self.held.get(usize::from(change.sender.0)) {
            Some(Some(last)) => last.change.change.view.0 < change.change.view.0,
            _ => true,
        }
    }
}

fn no_changes(alloc: Global, count: u8) -> Result<Vec<Option<SignedChange>>, NoMemory>
    ensures { IfOk result (λ held. held.items ≡ replicate count None) }
{
    let mut held = Vec::new(alloc);
    for _sender in 0..count {
        held.push(None)?;
    }
    Ok(held)
}

// The view change with a copy of its frame.
fn in_frame(alloc: Global, change: Change, bytes: &[u8]) -> Result<SignedChange, NoMemory>
    ensures { IfOk result (λ signed. held_data signed ≡ held_as change bytes.now) }
{
    let frame = Vec::from_slice(alloc, bytes)?;
    Ok(SignedChange { change, frame })
}

// The view change that is stored with this frame.
fn held_in<'a>(held: &'a [Option<SignedChange>], bytes: &[u8]) -> Option<&'a Change>
    ensures { option_map (λ change. change_pair change.now) result
        ≡ option_map (λ h. (h.sender, h.change)) (finding.held_with_frame bytes.now (held_by held.now)) }
{
    let [first, rest @ ..] = held else {
        return None;
    };
    match first {
        Some(signed) => {
            if signed.frame.as_slice() == bytes {
                Some(&signed.change)
            } else {
                held_in(rest, bytes)
            }
        }
        None => held_in(rest, bytes),
    }
}

// The view of another replica's stored view change, if it is above the target.
fn later_view(signed: &Option<SignedChange>, me: ReplicaId, target: View) -> Option<View>
    ensures { option_map (λ view. view.0) result
        ≡ spec.later_view me.0 target.0 (option_map held_data signed.now) }
{
    let Some(signed) = signed else {
        return None;
    };
    let view = signed.change.change.view;
    if signed.change.sender.0 != me.0 && target.0 < view.0 {
        Some(view)
    } else {
        None
    }
}

fn count_later(held: &[Option<SignedChange>], me: ReplicaId, target: View) -> usize
    ensures count { result ≡ length (later_views me.0 target.0 (held_by held.now)) }
    ensures few { result ≤ length held.now }
{
    let [first, rest @ ..] = held else {
        return 0;
    };
    let count = count_later(rest, me, target);
    match later_view(first, me, target) {
        Some(_view) => count + 1,
        None => count,
    }
}

fn least_later(held: &[Option<SignedChange>], me: ReplicaId, target: View) -> Option<View>
    ensures { option_map (λ view. view.0) result
        ≡ finding.least_of (later_views me.0 target.0 (held_by held.now)) }
{
    let [first, rest @ ..] = held else {
        return None;
    };
    let least = least_later(rest, me, target);
    match later_view(first, me, target) {
        Some(view) => Some(lesser(view, least)),
        None => least,
    }
}

fn lesser(view: View, other: Option<View>) -> View
    ensures { result.0 ≡ finding.lesser view.0 (option_map (λ other. other.0) other) }
{
    match other {
        Some(other) if other.0 < view.0 => other,
        _ => view,
    }
}
