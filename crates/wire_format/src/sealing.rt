//! From a body and its authenticator to a frame, in two parts: a MAC or a signature is made from the body's bytes in
//! the frame.

ghost use Rattle.std.specs.Prelude.{◌≡◌, ◌≢◌, ◌≤◌, OnOk, OnErr, IfOk, IfErr, take, vec_len, length};
ghost use Rattle.wire_format.specs.declared.fault.WireFault.TheVariants.{TooLarge, Malformed};
ghost use Rattle.wire_format.specs.Views.{message_data, macs_of};
ghost use Rattle.wire_format.specs.Spelling.{piece, authenticator_spelling, frame_limit};
ghost use Rattle.wire_format.specs.Counts.{CountsFit};
ghost use Rattle.wire_format.specs.Appends.{Appends};
ghost use Rattle.wire_format.specs.Texts.{body_text, authenticator_text, frame_text};
ghost use Rattle.wire_format.specs.Sealing.{BodyFits, BodyExceeds, FrameFits, FrameExceeds};

use crate::bodies::put_body;
use crate::fault::WireFault;
use crate::frames::{Authenticator, Frame, MAX_FRAME, MAX_VIEW_CHANGE, ReceiverMac};
use crate::messages::{Body, Message};
use crate::sizes::{authenticator_len, body_len};
use std::alloc::Global;
use terms::NoMemory;

/// The length and the bytes of the body, in a block of memory with room for an authenticator of `authenticator_len`
/// bytes. That is at most 16,578: two and 34 for each receiver, or one and a signature.
///
/// # Errors
///
/// TooLarge if the frame with that authenticator is longer than it may be. Otherwise NoMemory if memory runs out.
pub fn begin_frame(
    alloc: Global,
    body: &Body,
    authenticator_len: usize,
) -> Result<Vec<u8>, WireFault>
    requires body { CountsFit (message_data body.now.message) }
    requires authenticator { authenticator_len ≤ 16578 }
    ensures ok { IfOk result (λ frame. frame.items ≡ piece (body_text body.now)) }
    ensures short { OnOk result (BodyFits body.now authenticator_len) }
    ensures large { IfErr result (λ e. e ≡ TooLarge → BodyExceeds body.now authenticator_len) }
    ensures memory { IfErr result (λ e. BodyExceeds body.now authenticator_len → e ≡ TooLarge) }
    ensures spelled { IfErr result (λ e. e ≢ Malformed) }
{
    let limit = limit_of(&body.message);
    let len = body_len(body);
    if len > limit - 4 - authenticator_len {
        return Err(WireFault::TooLarge);
    }
    let mut frame = Vec::with_capacity(alloc, 4 + len + authenticator_len)?;
    let len = len as u32;
    frame.extend_from_slice(&len.to_be_bytes())?;
    put_body(body, &mut frame)?;
    Ok(frame)
}

/// The bytes of the frame.
///
/// # Errors
///
/// TooLarge if there are more bytes than a frame of that message may have. Otherwise NoMemory if memory runs out.
pub fn encode_frame(alloc: Global, frame: &Frame) -> Result<Vec<u8>, WireFault>
    requires body { CountsFit (message_data frame.now.body.message) }
    requires authenticator { length (authenticator_text frame.now.authenticator) ≤ 16578 }
    ensures ok { IfOk result (λ bytes. bytes.items ≡ frame_text frame.now) }
    ensures short { OnOk result (FrameFits frame.now) }
    ensures large { IfErr result (λ e. e ≡ TooLarge → FrameExceeds frame.now) }
    ensures memory { IfErr result (λ e. FrameExceeds frame.now → e ≡ TooLarge) }
    ensures spelled { IfErr result (λ e. e ≢ Malformed) }
{
    let mut bytes = begin_frame(alloc, &frame.body, authenticator_len(&frame.authenticator))?;
    put_authenticator(&mut bytes, &frame.authenticator)?;
    Ok(bytes)
}

fn limit_of(message: &Message) -> usize
    ensures { result ≡ frame_limit (message_data message.now) }
{
    match message {
        Message::ViewChange(_) => MAX_VIEW_CHANGE,
        _ => MAX_FRAME,
    }
}

/// Appends the authenticator. An `Err` leaves the bytes as they were.
pub fn put_authenticator(frame: &mut Vec<u8>, authenticator: &Authenticator) -> Result<(), NoMemory>
    ensures ok { Appends (authenticator_text authenticator.now) frame.old frame.new result }
    ensures err { OnErr result (frame.new.items ≡ frame.old.items) }
{
    let old_len = frame.len();
    match put_parts(authenticator, frame) {
        Ok(()) => Ok(()),
        Err(error) => {
            frame.truncate(old_len);
            Err(error)
        }
    }
}

fn put_parts(authenticator: &Authenticator, out: &mut Vec<u8>) -> Result<(), NoMemory>
    ensures ok { Appends (authenticator_text authenticator.now) out.old out.new result }
    ensures kept { take (vec_len out.old) out.new.items ≡ out.old.items }
{
    match authenticator {
        Authenticator::Macs(macs) => put_macs(macs.as_slice(), out),
        Authenticator::Signature(signature) => {
            out.push(1)?;
            Ok(out.extend_from_slice(signature.as_slice())?)
        }
    }
}

fn put_macs(receivers: &[ReceiverMac], out: &mut Vec<u8>) -> Result<(), NoMemory>
    requires { length receivers.now ≤ 10 }
    ensures ok { Appends (authenticator_spelling (macs_of receivers.now)) out.old out.new result }
    ensures kept { take (vec_len out.old) out.new.items ≡ out.old.items }
{
    out.push(0)?;
    out.push(receivers.len() as u8)?;
    for mac in receivers {
        out.extend_from_slice(&mac.receiver.number().to_be_bytes())?;
        out.extend_from_slice(&mac.mac)?;
    }
    Ok(())
}
