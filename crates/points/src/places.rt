//! The positions of numbers.

ghost use Rattle.std.specs.Prelude.{◌≡◌, reverse, IfOk};
ghost use Rattle.std.specs.List.Sorted.{IsNonDecreasingBy};
ghost use Rattle.points.specs.Leveling.{rises, level_position};
ghost use Rattle.points.specs.Places.{position_in};
ghost use Rattle.points.specs.declared.levels.Rise.{Rise as RiseData};

use crate::levels::{Rise, find_rises};
use events::{Config, Entry};
use std::alloc::Global;
use terms::{NoMemory, Number};

/// The position at which each level of a trace was reached.
#[derive(Drop)]
pub(crate) struct Places {
    rises: Vec<Rise>,
    ghost rising: { IsNonDecreasingBy (λ (x : RiseData). x.level) rises.items },
}

impl Places {
    pub(crate) fn of(alloc: Global, config: &Config, trace: &[Entry]) -> Result<Places, NoMemory>
        ensures { IfOk result
            (λ places. reverse places.rises.items ≡ rises config.now (reverse trace.now)) }
    {
        let rises = find_rises(alloc, config, trace)?;
        Ok(Places { rises })
    }

    /// The first position at which the level is at least the number, which is not 0.
    pub(crate) fn first(&self, number: Number) -> Option<usize>
        ensures { result ≡ level_position (reverse self.now.rises.items) number.0 }
    {
        let passed = self
            .rises
            .as_slice()
            .partition_point(|rise| rise.level < number.0);
        match self.rises.as_slice().get(passed) {
            Some(rise) => Some(rise.position),
            None => None,
        }
    }

    /// The same, and 0 for the number 0, and if there is none.
    pub(crate) fn position(&self, number: Number) -> usize
        ensures { result ≡ position_in (reverse self.now.rises.items) number.0 }
    {
        if number.0 == 0 {
            return 0;
        }
        self.first(number).unwrap_or(0)
    }
}
