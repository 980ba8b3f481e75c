//! The consequence of a client's event.

ghost use Rattle.std.specs.Prelude.{◌≡◌, ◌↔◌, IsTrue};
ghost use Rattle.space_node.specs.Calls.{AcceptNothing, AcceptsSome, AcceptsAnswer, MakesTurn, IsTurnOf};

use events::{Output, Outputs};
use std::alloc::Global;
use terms::Timestamp;
use tuple_codec::Answer;

/// The consequence of an event for the open call.
#[derive(Drop)]
pub(crate) enum Turn {
    /// The call goes on, with these outputs.
    Waits(Outputs),
    /// The call is answered.
    Answered(Answer<Global>),
}

/// The consequence of these outputs for a call of this timestamp.
pub(crate) fn turn_of(mut outputs: Outputs, timestamp: Timestamp) -> Turn
    requires { MakesTurn timestamp.0 outputs.items }
    ensures { IsTurnOf timestamp.0 outputs.items result }
{
    if accept_nothing(outputs.as_slice()) {
        return Turn::Waits(outputs);
    }
    let Some(output) = outputs.pop() else {
        unreachable!();
    };
    Turn::Answered(answer_in(output))
}

// The answer that the output accepts.
fn answer_in(output: Output) -> Answer<Global>
    requires { AcceptsSome output }
    ensures { AcceptsAnswer output result }
{
    match output {
        Output::Accepted(_, answer) => answer,
        Output::Executed(_, _) | Output::Installed(_, _) | Output::Send(_, _) => unreachable!(),
    }
}

fn accept_nothing(outputs: &[Output]) -> bool
    ensures { IsTrue result ↔ AcceptNothing outputs.now }
{
    for output in outputs {
        if accepts(output) {
            return false;
        }
    }
    true
}

fn accepts(output: &Output) -> bool
    ensures { IsTrue result ↔ AcceptsSome output.now }
{
    match output {
        Output::Accepted(_, _) => true,
        _ => false,
    }
}
