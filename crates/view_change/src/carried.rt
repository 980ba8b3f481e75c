//! View changes in the frames that a new view carries.

ghost use Rattle.std.specs.Prelude.{◌≡◌, IfOk, MatchOption, None};
ghost use Rattle.std.specs.Option.{option_map};
ghost use Rattle.protocol.specs.Replica.Selection.{change_in, signed_change};
ghost use Rattle.signing.specs.AuthenticBody.{has_signature};
ghost use Rattle.wire_format.specs.Messages.{FrameData, view_change};
ghost use Rattle.wire_format.specs.Spelling.{SpellsFrame};
ghost use Rattle.wire_format.specs.Views.{frame_data, message_data, view_change_data};
ghost use Rattle.view_change.specs.Sets.{change_pair, keyed};

use crate::changes::{Change, Sizes};
use signing::PublicKeys;
use std::alloc::Global;
use terms::{NoMemory, ReplicaId};
use wire::{Frame, Message, ViewChange, WireFault, decode};

// The frame that the bytes spell, if any.
fn read_frame(alloc: Global, bytes: &[u8]) -> Result<Option<Frame>, NoMemory>
    ensures { IfOk result (λ o. MatchOption o ((f : FrameData) → SpellsFrame bytes.now f → ⊥)
        (λ f. SpellsFrame bytes.now (frame_data f))) }
{
    match decode(alloc, bytes) {
        Ok(frame) => Ok(Some(frame)),
        Err(WireFault::NoMemory) => Err(NoMemory),
        Err(WireFault::Malformed) => Ok(None),
        Err(WireFault::TooLarge) => Ok(None),
    }
}

// The view change in the frame, if it is one.
fn into_change(frame: Frame) -> Option<ViewChange>
    ensures { MatchOption result (change_in (frame_data frame).body ≡ None)
        (λ change. message_data frame.body.message ≡ view_change (view_change_data change)) }
{
    let Frame {
        body,
        authenticator: _authenticator,
    } = frame;
    match body.message {
        Message::ViewChange(change) => Some(change),
        _other => None,
    }
}

// Whether the sender of the frame, which the bytes spell, signed it.
fn is_signed(keys: &PublicKeys, frame: &Frame, bytes: &[u8]) -> bool
    requires { SpellsFrame bytes.now (frame_data frame.now) }
    ensures { result ≡ has_signature keys.now (frame_data frame.now) }
{
    keys.has_signature(frame, bytes)
}

/// The view change that the bytes spell, if its sender is a replica and signed it.
pub(crate) fn open_change(
    alloc: Global,
    keys: &PublicKeys,
    sizes: Sizes,
    bytes: &[u8],
) -> Result<Option<Change>, NoMemory>
    ensures { IfOk result (λ o. option_map change_pair o ≡ signed_change (keyed keys.now sizes) bytes.now) }
{
    let Some(frame) = read_frame(alloc, bytes)? else {
        return Ok(None);
    };
    let sender = frame.body.sender.number();
    if sender > 3 * sizes.faults as u16 {
        return Ok(None);
    }
    if !is_signed(keys, &frame, bytes) {
        return Ok(None);
    }
    let sender = ReplicaId(sender as u8);
    let Some(change) = into_change(frame) else {
        return Ok(None);
    };
    Ok(Some(Change { sender, change }))
}
