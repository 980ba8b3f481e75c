//! Whether bytes spell a frame. Nothing here copies them or takes memory.

ghost use Rattle.std.specs.Prelude.{◌≡◌, ◌≢◌, ◌≤◌, ◌&&◌, ◌<◌, is_some, length, option_map, IfOk, IfErr, IsOk, [], nat_le, ◌==◌, ◌||◌};
ghost use Rattle.tuple_tree.specs.Results.{Yields};
ghost use Rattle.wire_format.specs.Messages.{FrameData};
ghost use Rattle.wire_format.specs.Spelling as Spelling;
ghost use Rattle.wire_format.specs.Spelling.{SpellsFrame};
ghost use Rattle.wire_format.specs.Faults.{IsTooLarge, limit_at};
ghost use Rattle.wire.specs.Headers.{HasHeader, header_data, header_of, authenticator_bytes_data};
ghost use Rattle.wire.specs.Judging.{JudgesFrame, ends};
ghost use Rattle.wire_format.specs.Reading.{whole_value, message_at, message_by, request_at, reply_at, pre_prepare_at, vote_at, checkpoint_at, fetch_at, meta_at, page_at, digest_list_at, new_view_at, authenticator_of, frame_read, too_large};
ghost use Rattle.wire.specs.Results.{YieldsRest};

use crate::authenticators::{read_mac_authenticator, read_signature_authenticator};
use crate::carried::{read_batch, skip_batches, skip_changes};
use crate::changes::skip_view_change;
use crate::fields::{CHILDREN, last_index, read_client, read_place, read_vote};
use crate::headers::{AuthenticatorBytes, Header};
use crate::oversize::carries_too_large;
use crate::reading::{party, read_byte, read_digest, read_mode, read_piece, read_u16, read_u64};
use terms::Level;
use tuple_codec::{is_op, is_result};
use wire_format::{MAX_FRAME, MAX_VIEW_CHANGE, NoFrame};

/// The header of the frame that the bytes, whole, spell. Takes no memory.
///
/// # Errors
///
/// TooLarge if there are more than 4,194,304 bytes, more than 262,144 of a view change, or if they are a new view up
/// to the length of a view change that is longer than that. Malformed if they spell no frame otherwise.
pub fn judge(bytes: &[u8]) -> Result<Header<'_>, NoFrame>
    ensures found { IfOk result (λ header. HasHeader bytes.now (header_data header)) }
    ensures only { (f : FrameData) → SpellsFrame bytes.now f → IsOk result }
    ensures large { IfErr result (λ e. e ≡ NoFrame.TooLarge → IsTooLarge bytes.now) }
    ensures only_large { IsTooLarge bytes.now → IfErr result (λ e. e ≢ NoFrame.Malformed) }
{
    judge_whole(bytes)
}

fn judge_whole(bytes: &[u8]) -> Result<Header<'_>, NoFrame>
    ensures { JudgesFrame result (frame_read bytes.now) (too_large bytes.now) }
{
    if bytes.len() > limit(bytes) {
        return Err(NoFrame::TooLarge);
    }
    if carries_too_large(bytes) {
        return Err(NoFrame::TooLarge);
    }
    match header(bytes) {
        Some(header) => Ok(header),
        None => Err(NoFrame::Malformed),
    }
}

// The most bytes of a frame of the type at byte 4.
fn limit(bytes: &[u8]) -> usize
    ensures { result ≡ limit_at bytes.now }
{
    match bytes {
        [_, _, _, _, 0x46, ..] => MAX_VIEW_CHANGE,
        _ => MAX_FRAME,
    }
}

// The header of a frame that is not too long.
fn header(bytes: &[u8]) -> Option<Header<'_>>
    requires { length bytes.now ≤ limit_at bytes.now }
    ensures { Yields header_data result (option_map header_of (frame_read bytes.now)) }
{
    let (text, rest) = read_piece(bytes)?;
    let (kind, behind) = read_byte(text)?;
    let (number, fields) = read_u16(behind)?;
    if !is_message(kind, fields) {
        return None;
    }
    let authenticator = read_authenticator(is_signed(kind), rest)?;
    let sender = party(number);
    Some(Header {
        sender,
        is_request: kind == 0x41,
        text,
        authenticator,
    })
}

// Whether messages of this type are signed.
fn is_signed(kind: u8) -> bool
    ensures { result ≡ kind == 0x46 || kind == 0x47 }
{
    kind == 0x46 || kind == 0x47
}

fn read_authenticator(signed: bool, bytes: &[u8]) -> Option<AuthenticatorBytes<'_>>
    ensures { Yields authenticator_bytes_data result (authenticator_of signed bytes.now) }
{
    if signed {
        Some(AuthenticatorBytes::Signature(read_signature_authenticator(bytes)?))
    } else {
        Some(AuthenticatorBytes::Macs(read_mac_authenticator(bytes)?))
    }
}

// Whether the bytes, whole, are the fields of a message of this type.
#[tactic(auto, unfolding(wire_format::specs::Reading::message_at, wire_format::specs::Reading::message_by))]
fn is_message(kind: u8, fields: &[u8]) -> bool
    ensures { result ≡ is_some (message_by kind fields.now) }
{
    match kind {
        0x41 => is_request(fields),
        0x42 => is_all(skip_pre_prepare(fields)),
        0x43 => is_all(skip_vote(fields)),
        0x44 => is_all(skip_vote(fields)),
        0x45 => is_all(skip_checkpoint(fields)),
        0x46 => is_all(skip_view_change(fields)),
        0x47 => is_all(skip_new_view(fields)),
        0x48 => is_reply(fields),
        0x49 => is_all(skip_place(fields)),
        0x4a => is_all(skip_meta(fields)),
        0x4b => is_page(fields),
        _ => false,
    }
}

// Whether nothing is left.
fn is_all(rest: Option<&[u8]>) -> bool
    ensures { result ≡ ends (option_map (λ bs. bs.now) rest.entry) }
{
    match rest {
        Some(rest) => rest.is_empty(),
        None => false,
    }
}

fn is_request(fields: &[u8]) -> bool
    ensures { result ≡ is_some (whole_value (request_at fields.now)) }
{
    let Some((_timestamp, rest)) = read_u64(fields) else {
        return false;
    };
    match read_mode(rest) {
        Some((_mode, op)) => is_op(op),
        None => false,
    }
}

fn is_reply(fields: &[u8]) -> bool
    ensures { result ≡ is_some (whole_value (reply_at fields.now)) }
{
    let Some((_client, rest)) = read_client(fields) else {
        return false;
    };
    let Some((_timestamp, rest)) = read_u64(rest) else {
        return false;
    };
    let Some((_kind, rest)) = read_mode(rest) else {
        return false;
    };
    match read_u64(rest) {
        Some((_number, answer)) => is_result(answer),
        None => false,
    }
}

fn is_page(fields: &[u8]) -> bool
    ensures { result ≡ is_some (whole_value (page_at fields.now)) }
{
    let Some((_number, rest)) = read_u64(fields) else {
        return false;
    };
    match read_u16(rest) {
        Some((index, _text)) => index <= last_index(Level::Page),
        None => false,
    }
}

// Each of these gives the bytes after the fields at the front.
#[tactic(auto, unfolding(wire_format::specs::Reading::pre_prepare_at))]
fn skip_pre_prepare(bytes: &[u8]) -> Option<&[u8]>
    ensures { YieldsRest result (pre_prepare_at bytes.now) }
{
    let (_view, rest) = read_u64(bytes)?;
    let (_number, rest) = read_u64(rest)?;
    let (_batch, rest) = read_batch(rest, 1)?;
    Some(rest)
}

fn skip_vote(bytes: &[u8]) -> Option<&[u8]>
    ensures { YieldsRest result (vote_at bytes.now) }
{
    let (_view, _number, _digest, rest) = read_vote(bytes)?;
    Some(rest)
}

#[tactic(auto, unfolding(wire_format::specs::Reading::checkpoint_at))]
fn skip_checkpoint(bytes: &[u8]) -> Option<&[u8]>
    ensures { YieldsRest result (checkpoint_at bytes.now) }
{
    let (_number, rest) = read_u64(bytes)?;
    let (_root, rest) = read_digest(rest)?;
    Some(rest)
}

#[tactic(auto, unfolding(wire_format::specs::Reading::new_view_at))]
fn skip_new_view(bytes: &[u8]) -> Option<&[u8]>
    ensures { YieldsRest result (new_view_at bytes.now) }
{
    let (_view, rest) = read_u64(bytes)?;
    let rest = skip_changes(rest)?;
    let (_start, rest) = read_u64(rest)?;
    let (_root, rest) = read_digest(rest)?;
    skip_batches(rest)
}

#[tactic(auto, unfolding(wire_format::specs::Reading::fetch_at))]
fn skip_place(bytes: &[u8]) -> Option<&[u8]>
    ensures { YieldsRest result (fetch_at bytes.now) }
{
    let (_number, _level, _index, rest) = read_place(bytes)?;
    Some(rest)
}

#[tactic(auto, unfolding(wire_format::specs::Reading::meta_at))]
fn skip_meta(bytes: &[u8]) -> Option<&[u8]>
    ensures { YieldsRest result (meta_at bytes.now) }
{
    let (_number, level, _index, rest) = read_place(bytes)?;
    match level {
        Level::Root | Level::Inner => skip_digests(rest, CHILDREN),
        Level::Page => None,
    }
}

fn skip_digests(bytes: &[u8], count: u8) -> Option<&[u8]>
    ensures { YieldsRest result (digest_list_at count bytes.now) }
{
    let mut rest = bytes;
    for _i in 0..count {
        let (_digest, after) = read_digest(rest)?;
        rest = after;
    }
    Some(rest)
}
