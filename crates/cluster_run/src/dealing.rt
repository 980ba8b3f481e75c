//! The operations of each client.

ghost use Rattle.std.specs.Prelude.{◌≡◌, ◌<◌, [], IfOk, IfSome};
ghost use Rattle.cluster_run.specs.Hands.{AreDealt, AreGathered, TakesItem};

use crate::fault::LateFault;
use std::alloc::Global;
use std::mem;
use terms::NoMemory;
use tuple_codec::{Answer, Op};

/// The operations of each of so many clients: client `i` modulo their number has operation `i`, counted from 0.
pub(crate) fn deal(
    alloc: Global,
    clients: usize,
    ops: Vec<Op<Global>>,
) -> Result<Vec<Vec<Op<Global>>>, NoMemory>
    requires { 0 < clients }
    ensures { IfOk result (λ hands. AreDealt ops.items clients hands.items) }
{
    let mut hands = empty_hands(alloc, clients)?;
    for (i, op) in ops.into_iter().enumerate() {
        hands[i % clients].push(op)?;
    }
    Ok(hands)
}

fn empty_hands(alloc: Global, count: usize) -> Result<Vec<Vec<Op<Global>>>, NoMemory>
    ensures { IfOk result (λ hands. AreDealt [] count hands.items) }
{
    let mut hands = Vec::new(alloc);
    for _ in 0..count {
        hands.push(Vec::new(alloc))?;
    }
    Ok(hands)
}

/// The answers of each client, put into the order of the `count` operations.
///
/// # Errors
///
/// NoAnswer if a client has fewer answers than operations, and NoMemory.
pub(crate) fn gather(
    alloc: Global,
    clients: usize,
    mut hands: Vec<Vec<Answer<Global>>>,
    count: usize,
) -> Result<Vec<Answer<Global>>, LateFault>
    requires { 0 < clients }
    ensures { IfOk result (λ answers. AreGathered hands.items clients count answers.items) }
{
    let mut answers = Vec::with_capacity(alloc, count)?;
    for i in 0..count {
        answers.push(take_answer(&mut hands, i % clients, i / clients).ok_or(
            LateFault::NoAnswer,
        )?)?;
    }
    Ok(answers)
}

// Takes the answer out of this place of a hand.
fn take_answer(
    hands: &mut Vec<Vec<Answer<Global>>>,
    hand: usize,
    place: usize,
) -> Option<Answer<Global>>
    ensures { IfSome result (λ answer. TakesItem hands.old.items hand place answer hands.new.items) }
{
    if hand >= hands.len() || place >= hands[hand].len() {
        return None;
    }
    Some(mem::replace(&mut hands[hand][place], Answer::Done))
}
