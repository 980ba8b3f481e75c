//! A client, as its process steps it.

use events::{Outputs, Stop};
use std::alloc::Global;
use tuple_codec::Op;

/// A client, as its process steps it: a state machine over calls, frames and ticks. What it holds fits its history.
pub trait Caller {
    ghost use Rattle.std.specs.Prelude.{◌≡◌, ℕ, List, IfOk};
    ghost use Rattle.terms.specs.Parties.{client_number};
    ghost use Rattle.tuple_codec.specs.OperationView.{operation_of};
    ghost use Rattle.protocol.specs.System.Configuration.{Configuration};
    ghost use Rattle.protocol.specs.System.Trace.{Entry};
    ghost use Rattle.protocol.specs.System.Trace.Entry.{Invoke, Got, Tick};
    ghost use Rattle.events.specs.Outputs.{after_event, AreSentAsMeant};
    ghost use Rattle.client_process.specs.Clients.{IsPromptLife};

    /// Its number among the parties.
    ghost me: { Self → ℕ };

    /// It runs, and holds what this history of its life says, which began above the timestamp.
    ghost fits: { Self → Configuration → ℕ → List Entry → Type 0 };

    /// What it gives for the call of an operation, which gets a timestamp of its own. At an error it is no more.
    fn call(&mut self, alloc: Global, op: Op<Global>) -> Result<Outputs, Stop>
        ensures me { me self.new ≡ me self.old }
        ensures leads { IfOk result (λ outs. (c : Configuration) (start : ℕ) (history : List Entry)
            → fits self.old c start history
            → (timestamp : ℕ) × fits self.new c start (after_event (me self.old)
            (Invoke (client_number (me self.old)) timestamp (operation_of op)) outs.items history)
            × AreSentAsMeant c (me self.old) outs.items) };

    /// What it gives for a frame that came. At an error it is no more.
    fn got(&mut self, alloc: Global, frame: &[u8]) -> Result<Outputs, Stop>
        ensures me { me self.new ≡ me self.old }
        ensures leads { IfOk result (λ outs. (c : Configuration) (start : ℕ) (history : List Entry)
            → fits self.old c start history
            → fits self.new c start (after_event (me self.old) (Got (me self.old) frame.now) outs.items history)
            × AreSentAsMeant c (me self.old) outs.items) };

    /// What it gives when time went by. At an error it is no more.
    fn retry(&mut self, alloc: Global) -> Result<Outputs, Stop>
        ensures me { me self.new ≡ me self.old }
        ensures leads { IfOk result (λ outs. (c : Configuration) (start : ℕ) (history : List Entry)
            → fits self.old c start history
            → fits self.new c start (after_event (me self.old) (Tick (me self.old)) outs.items history)
            × AreSentAsMeant c (me self.old) outs.items) };

    /// A history that fits is one life of a correct client.
    ghost is_right: { (caller : Self) (c : Configuration) (start : ℕ) (history : List Entry)
        → fits caller c start history → IsPromptLife c (me caller) start history };
}
