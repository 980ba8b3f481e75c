//! The calls that request frames spell.

ghost use Rattle.std.specs.Prelude.{◌≡◌, ◌<◌, IfOk, IfSome, IsNone, None, option_map};
ghost use Rattle.wire.specs.Headers.{IsFrame};
ghost use Rattle.execution.specs.Calls.{call_data, HoldsCall, IsCallOfFrame};

use std::alloc::Allocator;
use terms::{ClientId, FIRST_CLIENT, Mode, NoMemory, Timestamp};
use tuple_codec::{Op, decode_judged_op};
use wire::{RequestBytes, has_type_of_requests, request_in};

/// An ordered request of one of the clients.
#[derive(Drop)]
pub struct Call<A: Allocator> {
    pub client: ClientId,
    pub timestamp: Timestamp,
    pub op: Op<A>,
}

/// The call that a frame spells, if it is an ordered request of one of so many clients. NoMemory if memory runs out.
pub fn read_call<A: Allocator + Clone>(
    alloc: A,
    frame: &[u8],
    clients: u16,
) -> Result<Option<Call<A>>, NoMemory>
    requires { IsFrame frame.now }
    ensures found { IfOk result (λ call. IsCallOfFrame clients frame.now (option_map call_data call)) }
    ensures client { IfOk result (λ found. IfSome found (λ call. call.client.number < clients)) }
{
    let Some((client, request)) = call_in(frame, clients) else {
        return Ok(None);
    };
    let op = decode_judged_op(alloc, request.op)?;
    Ok(Some(Call {
        client,
        timestamp: request.timestamp,
        op,
    }))
}

// The client and its request, if a frame spells an ordered request of one of so many clients.
fn call_in(frame: &[u8], clients: u16) -> Option<(ClientId, RequestBytes<'_>)>
    requires { IsFrame frame.now }
    ensures some { IfSome result (λ found. HoldsCall clients frame.now found.0 found.1) }
    ensures none { IsNone result → IsCallOfFrame clients frame.now None }
{
    if !has_type_of_requests(frame) {
        return None;
    }
    let request = request_in(frame);
    let sender = request.sender.number();
    if sender < FIRST_CLIENT {
        return None;
    }
    let number = sender - FIRST_CLIENT;
    if number >= clients {
        return None;
    }
    match request.mode {
        Mode::Ordered => Some((ClientId { number }, request)),
        Mode::ReadOnly => None,
    }
}
