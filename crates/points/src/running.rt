//! Running batches, on a state without pages.

ghost use Rattle.std.specs.Prelude.{◌≡◌, ◌≤◌, IfOk, OnOk, map, reverse};
ghost use Rattle.terms.specs.declared.parties.TheConstants.{MAX_CLIENTS};
ghost use Rattle.wire.specs.Headers.{IsFrame};
ghost use Rattle.wire_format.specs.Lists.{Each};
ghost use Rattle.wire_format.specs.Words.{requests_of};
ghost use Rattle.protocol.specs.Replica.State.{opening};
ghost use Rattle.points.specs.Batching.{numbered_of};
ghost use Rattle.points.specs.Numbering.{AscendsFrom};
ghost use Rattle.points.specs.PointView.{placings_of};
ghost use Rattle.points.specs.Running.{PlacesOneFrame, PlacesAllFrames, RunsEach, placed_so_far};

use crate::places::Places;
use crate::point::{Placed, Point};
use execution::read_call;
use reply_cache::ReplyCache;
use space::Space;
use std::alloc::Global;
use std::collections::BTreeMap;
use terms::{Mode, NoMemory, Number};
use wire::requests;

/// A batch's number, the position of its level, and how many clients there are.
#[derive(Clone, Copy, Drop)]
struct Turn {
    number: Number,
    place: Option<usize>,
    clients: u16,
}

/// The points of the requests that ran in these batches. NoMemory if memory runs out, or births, of which there are 2
/// to the power of 62.
pub(crate) fn run_batches(
    alloc: Global,
    clients: u16,
    places: &Places,
    batches: BTreeMap<u64, &[u8]>,
) -> Result<Vec<Placed>, NoMemory>
    requires few { clients ≤ MAX_CLIENTS }
    requires ascends { AscendsFrom 1 (numbered_of batches.entries) }
    ensures { IfOk result (λ found. RunsEach clients (reverse places.now.rises.items)
        (numbered_of batches.entry.entries) (placings_of found.items)) }
{
    let mut space = Space::new(alloc);
    let mut replies = ReplyCache::new(alloc);
    let mut found = Vec::new(alloc);
    for (number, batch) in batches {
        let number = Number(number);
        let turn = Turn {
            number,
            place: places.first(number),
            clients,
        };
        run_batch(alloc, &mut space, &mut replies, &mut found, turn, batch)?;
    }
    Ok(found)
}

// Runs the requests of a batch one after another.
fn run_batch(
    alloc: Global,
    space: &mut Space,
    replies: &mut ReplyCache,
    found: &mut Vec<Placed>,
    turn: Turn,
    batch: &[u8],
) -> Result<(), NoMemory>
    requires few { turn.clients ≤ MAX_CLIENTS }
    ensures { OnOk result (PlacesAllFrames turn (requests_of batch.now)
        (placed_so_far space.old replies.old found.old.items)
        (placed_so_far space.new replies.new found.new.items)) }
{
    let frames = requests(batch);
    run_frames(alloc, space, replies, found, turn, frames.as_slice())
}

fn run_frames(
    alloc: Global,
    space: &mut Space,
    replies: &mut ReplyCache,
    found: &mut Vec<Placed>,
    turn: Turn,
    frames: &[&[u8]],
) -> Result<(), NoMemory>
    requires frames { Each IsFrame (map (λ frame. frame.now) frames.now) }
    requires few { turn.clients ≤ MAX_CLIENTS }
    ensures { OnOk result (PlacesAllFrames turn (map (λ frame. frame.now) frames.now)
        (placed_so_far space.old replies.old found.old.items)
        (placed_so_far space.new replies.new found.new.items)) }
{
    for frame in frames {
        run_frame(alloc, space, replies, found, turn, frame)?;
    }
    Ok(())
}

// Runs the request that a frame spells, if it is an ordered request of a client, above its last one.
fn run_frame(
    alloc: Global,
    space: &mut Space,
    replies: &mut ReplyCache,
    found: &mut Vec<Placed>,
    turn: Turn,
    frame: &[u8],
) -> Result<(), NoMemory>
    requires frame { IsFrame frame.now }
    requires few { turn.clients ≤ MAX_CLIENTS }
    ensures { OnOk result (PlacesOneFrame turn frame.now
        (placed_so_far space.old replies.old found.old.items)
        (placed_so_far space.new replies.new found.new.items)) }
{
    let Some(call) = read_call(alloc, frame, turn.clients)? else {
        return Ok(());
    };
    if call.timestamp.0 <= replies.seen(call.client) {
        return Ok(());
    }
    if !space.births_left() {
        return Err(NoMemory);
    }
    let answer = space.apply(call.client.number, &call.op)?;
    let kept = answer.copy_in(alloc)?;
    replies.put(call.client, call.timestamp.0, turn.number.0, kept)?;
    let Some(position) = turn.place else {
        return Ok(());
    };
    found.push(Placed {
        point: Point {
            client: call.client,
            timestamp: call.timestamp,
            op: call.op,
            answer,
            position,
        },
        number: turn.number,
        mode: Mode::Ordered,
    })?;
    Ok(())
}
