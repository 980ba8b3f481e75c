//! Whether bytes carry a view change that is too long. Nothing here takes memory.

ghost use Rattle.std.specs.Prelude.{◌≡◌, ◌-◌, ◌<◌, ◌≤◌, ◌&&◌, []};
ghost use Rattle.wire_format.specs.Lists.{listed};
ghost use Rattle.wire_format.specs.Reading.{body_over, changes_over, frame_over, is_over, new_view_over, over_in};

use crate::carried::{MAX_CHANGES, change_comes_next, read_change};
use crate::reading::{read_byte, read_piece, read_u16, read_u32, read_u64};
use wire_format::MAX_VIEW_CHANGE;

/// Whether the bytes are a new view up to the length of a view change that is over its limit.
#[tactic(auto, unfolding(wire_format::specs::Reading::frame_over))]
pub fn carries_too_large(bytes: &[u8]) -> bool
    ensures { result ≡ frame_over bytes.now }
{
    match read_piece(bytes) {
        Some((text, _authenticator)) => is_body_over(text),
        None => false,
    }
}

#[tactic(auto, unfolding(wire_format::specs::Reading::body_over, wire_format::specs::Reading::message_over))]
fn is_body_over(text: &[u8]) -> bool
    ensures { result ≡ body_over text.now }
{
    let Some((kind, rest)) = read_byte(text) else {
        return false;
    };
    match read_u16(rest) {
        Some((_sender, fields)) => kind == 0x47 && is_new_view_over(fields),
        None => false,
    }
}

#[tactic(auto, unfolding(wire_format::specs::Reading::new_view_over))]
fn is_new_view_over(fields: &[u8]) -> bool
    ensures { result ≡ new_view_over fields.now }
{
    match read_u64(fields) {
        Some((_view, changes)) => are_changes_over(changes),
        None => false,
    }
}

#[tactic(auto, unfolding(wire_format::specs::Reading::changes_over))]
fn are_changes_over(bytes: &[u8]) -> bool
    ensures { result ≡ changes_over bytes.now }
{
    match read_byte(bytes) {
        Some((count, front)) => count >= 1 && count <= MAX_CHANGES && is_one_over(count, front),
        None => false,
    }
}

// Whether one of so many view changes has a length over the limit, while those before it can be read.
fn is_one_over(count: u8, bytes: &[u8]) -> bool
    ensures { result ≡ over_in count [] bytes.now }
{
    let mut last = None;
    let mut rest = bytes;
    for _i in 0..count {
        if is_size_over(rest) {
            return true;
        }
        let Some((change, after)) = read_change(rest) else {
            return false;
        };
        if !change_comes_next(last, change) {
            return false;
        }
        last = Some(change);
        rest = after;
    }
    false
}

#[tactic(auto, unfolding(wire_format::specs::Reading::is_over))]
fn is_size_over(bytes: &[u8]) -> bool
    ensures { result ≡ is_over bytes.now }
{
    match read_u32(bytes) {
        Some((size, _behind)) => size as usize > MAX_VIEW_CHANGE,
        None => false,
    }
}
