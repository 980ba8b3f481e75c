//! The timers of a call.

ghost use Rattle.std.specs.Prelude.{◌≡◌};
ghost use Rattle.client_process.specs.Timers.{first_timer, next_timer};

/// The milliseconds of a call's first timer.
pub const FIRST: u32 = 500;

/// The most milliseconds of a timer.
pub const LONGEST: u32 = 8_000;

/// A timer: by its number the process is told that it is over.
#[derive(Clone, Copy, Debug, PartialEq, Eq, Drop)]
pub struct Timer {
    pub number: u64,
    pub milliseconds: u32,
}

impl Timer {
    /// The first timer of a call, if the last timer before it had this number.
    pub fn first(number: u64) -> Timer
        ensures { result ≡ first_timer number }
    {
        Timer {
            number: number.wrapping_add(1),
            milliseconds: FIRST,
        }
    }

    /// The timer that begins when this one is over, in the same call. It lasts twice as long, up to the longest.
    pub fn next(self) -> Timer
        ensures { result ≡ next_timer self }
    {
        Timer {
            number: self.number.wrapping_add(1),
            milliseconds: self.milliseconds.saturating_mul(2).min(LONGEST),
        }
    }
}
