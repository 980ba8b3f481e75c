//! A machine that adds.

use lives::{Machine, StepFault};
use std::alloc::Global;

/// Adds the bytes of its inputs, and gives the sum as a byte. An empty input moves nothing. The byte 255 is none of its
/// inputs.
#[derive(Drop)]
pub struct Adder {
    pub total: u8,
}

impl Machine for Adder {
    ghost use Rattle.std.specs.Prelude.{⊤};

    ghost fits = { λ _ _. ⊤ };

    fn step(
        &mut self,
        _alloc: Global,
        input: &[u8],
        outputs: &mut Vec<u8>,
    ) -> Result<bool, StepFault> {
        let [byte] = input else {
            return Ok(false);
        };
        if *byte == 255 {
            return Err(StepFault::NoInput);
        }
        self.total = self.total.wrapping_add(*byte);
        outputs.push(self.total)?;
        Ok(true)
    }
}
