//! A machine that takes inputs.

use crate::fault::StepFault;
use std::alloc::Global;

/// A machine that takes inputs, and gives outputs for each.
///
/// It need not be deterministic: that it gives the same again is tested whenever a log is played, and never supposed.
pub trait Machine {
    ghost use Rattle.std.specs.Prelude.{List, IfOk};
    ghost use Rattle.lives.specs.Events.{Event};
    ghost use Rattle.lives.specs.Steps.{Steps};

    /// The machine is what these events leave, the oldest first.
    ghost fits: { Self → List Event → Type 0 };

    /// Takes an input, appends the outputs for it, and gives whether it moved the machine. An input that moves nothing
    /// and has no outputs need not be kept. At an error the machine takes no more.
    fn step(
        &mut self,
        alloc: Global,
        input: &[u8],
        outputs: &mut Vec<u8>,
    ) -> Result<bool, StepFault>
        ensures { IfOk result (λ moved.
            Steps fits self.old self.new input.now outputs.old.items outputs.new.items moved) };
}
