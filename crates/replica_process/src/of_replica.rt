//! The replica of the protocol, as its process steps it.

use crate::machine::Machine;
use events::{Outputs, Stop};
use patience::Standing;
use replica::{Event, Replica};
use std::alloc::Global;

impl Machine for Replica {
    ghost use Rattle.std.specs.Prelude.{◌≡◌, false};
    ghost use Rattle.replica.specs.Fits.{Fits, me_of};
    ghost use Rattle.replica.specs.State.{has_stopped};
    ghost use Rattle.replica.proofs.Prompt.{replicas_are_prompt};

    ghost me = { me_of };

    ghost fits = { λ r c history. (has_stopped r ≡ false) × Fits c r history };

    fn got(&mut self, alloc: Global, frame: &[u8]) -> Result<Outputs, Stop> {
        self.step(alloc, Event::Got(frame))
    }

    fn time_out(&mut self, alloc: Global) -> Result<Outputs, Stop> {
        self.step(alloc, Event::Timeout)
    }

    fn standing(&self) -> Standing {
        match Replica::standing(self) {
            Some(standing) => standing,
            // One that has stopped waits for nothing.
            None => Standing {
                view: None,
                part: None,
                request: None,
            },
        }
    }

    ghost is_right = { λ r c history h. replicas_are_prompt c r history h.1 h.0 };
}
