//! A replica, as its process steps it.

use events::{Outputs, Stop};
use patience::Standing;
use std::alloc::Global;

/// A replica, as its process steps it: a state machine over frames and timeouts. What it holds fits its history.
pub trait Machine {
    ghost use Rattle.std.specs.Prelude.{◌≡◌, ℕ, List, IfOk};
    ghost use Rattle.protocol.specs.System.Configuration.{Configuration};
    ghost use Rattle.protocol.specs.System.Trace.{Entry};
    ghost use Rattle.protocol.specs.System.Trace.Entry.{Got, Tick};
    ghost use Rattle.protocol.specs.Replica.Owed.{IsPromptReplica};
    ghost use Rattle.events.specs.Outputs.{after_event, AreSentAsMeant};
    ghost use Rattle.patience.specs.Stands.{Stands};

    /// Its number among the parties.
    ghost me: { Self → ℕ };

    /// It runs, and holds what this history says.
    ghost fits: { Self → Configuration → List Entry → Type 0 };

    /// What it gives for a frame that came. At an error it is no more.
    fn got(&mut self, alloc: Global, frame: &[u8]) -> Result<Outputs, Stop>
        ensures me { me self.new ≡ me self.old }
        ensures leads { IfOk result (λ outs. (c : Configuration) (history : List Entry) → fits self.old c history
            → fits self.new c (after_event (me self.old) (Got (me self.old) frame.now) outs.items history)
            × AreSentAsMeant c (me self.old) outs.items) };

    /// What it gives at a timeout. At an error it is no more.
    fn time_out(&mut self, alloc: Global) -> Result<Outputs, Stop>
        ensures me { me self.new ≡ me self.old }
        ensures leads { IfOk result (λ outs. (c : Configuration) (history : List Entry) → fits self.old c history
            → fits self.new c (after_event (me self.old) (Tick (me self.old)) outs.items history)
            × AreSentAsMeant c (me self.old) outs.items) };

    /// What it waits for.
    fn standing(&self) -> Standing
        ensures { (c : Configuration) (history : List Entry) → fits self.now c history
            → Stands c (me self.now) history result };

    /// A history that fits is a correct replica's.
    ghost is_right: { (machine : Self) (c : Configuration) (history : List Entry) → fits machine c history
        → IsPromptReplica c (me machine) history };
}
