//! Running the requests of a batch.

ghost use Rattle.std.specs.Prelude.{◌+◌, ◌*◌, ◌^◌, ◌<◌, ◌≤◌, map, length, OnOk};
ghost use Rattle.space.specs.declared.births.TheConstants.{PAGES as TUPLE_PAGES};
ghost use Rattle.terms.specs.declared.parties.TheConstants.{MAX_CLIENTS};
ghost use Rattle.wire.specs.Headers.{IsFrame};
ghost use Rattle.wire_format.specs.Lists.{Each};
ghost use Rattle.execution.specs.Running.{so_far, RunsOneFrame, RunsAll};
ghost use Rattle.execution.specs.Touching.{ChangesAreTouched};

use crate::calls::read_call;
use crate::replies::WatchedReplies;
use bumpalo::Bump;
use space::Watched;
use std::alloc::Global;
use terms::{ClientId, NoMemory, Number, Timestamp};
use tuple_codec::Answer;

/// A request that ran, with the contents of a reply to it: its client and timestamp, the number of its batch, and the
/// answer.
#[derive(Drop)]
pub struct Ran {
    pub client: ClientId,
    pub timestamp: Timestamp,
    pub number: Number,
    pub answer: Answer<Global>,
}

/// Runs the request that a frame spells, if it is an ordered request of a client, above its last one. The arena is for
/// its operation.
fn run_frame(
    alloc: Global,
    arena: &Bump,
    space: &mut Watched,
    replies: &mut WatchedReplies,
    ran: &mut Vec<Ran>,
    number: Number,
    clients: u16,
    frame: &[u8],
) -> Result<(), NoMemory>
    requires frame { IsFrame frame.now }
    requires births { space.old.state.next < 2 ^ 62 }
    requires clients { clients ≤ MAX_CLIENTS }
    ensures runs { OnOk result (RunsOneFrame clients number.0 frame.now
        (so_far space.old replies.old ran.old.items) (so_far space.new replies.new ran.new.items)) }
    ensures births { space.new.state.next ≤ space.old.state.next + TUPLE_PAGES }
    ensures changes { ChangesAreTouched space.old replies.old space.new replies.new }
{
    let Some(call) = read_call(arena, frame, clients)? else {
        return Ok(());
    };
    if call.timestamp.0 <= replies.replies().seen(call.client) {
        return Ok(());
    }
    let answer = space.apply(call.client.number, &call.op)?;
    let kept = answer.copy_in(alloc)?;
    replies.put(call.client, call.timestamp, number, kept)?;
    ran.push(Ran {
        client: call.client,
        timestamp: call.timestamp,
        number,
        answer,
    })?;
    Ok(())
}

/// Runs the requests of frames one after another. An `Err` may leave the effects of some of them. Their operations lie
/// in one arena until the last one ran.
pub fn run_frames(
    alloc: Global,
    space: &mut Watched,
    replies: &mut WatchedReplies,
    ran: &mut Vec<Ran>,
    number: Number,
    clients: u16,
    frames: &[&[u8]],
) -> Result<(), NoMemory>
    requires frames { Each IsFrame (map (λ frame. frame.now) frames.now) }
    requires births { space.old.state.next + TUPLE_PAGES * length frames.now < 2 ^ 62 }
    requires clients { clients ≤ MAX_CLIENTS }
    ensures runs { OnOk result (RunsAll clients number.0 (map (λ frame. frame.now) frames.now)
        (so_far space.old replies.old ran.old.items) (so_far space.new replies.new ran.new.items)) }
    ensures births { space.new.state.next ≤ space.old.state.next + TUPLE_PAGES * length frames.now }
    ensures changes { ChangesAreTouched space.old replies.old space.new replies.new }
{
    let arena = Bump::new(alloc);
    for frame in frames {
        run_frame(alloc, &arena, space, replies, ran, number, clients, frame)?;
    }
    Ok(())
}
