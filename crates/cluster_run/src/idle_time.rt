//! When the replicas learn that time went by.

// Seconds without an answer before the replicas learn of it for the first time.
const FIRST: u64 = 3;

/// How many seconds no operation was answered, and how many such seconds may pass.
///
/// Each time that the replicas learn of it, they may change their view, and each has 64 signatures. So the time that
/// may pass doubles each time, and never falls again.
#[derive(Clone, Copy, Drop)]
pub(crate) struct Patience {
    answered: u64,
    idle: u64,
    allowed: u64,
}

impl Patience {
    pub(crate) fn new() -> Patience {
        Patience {
            answered: 0,
            idle: 0,
            allowed: FIRST,
        }
    }

    /// Counts a second, with so many operations answered by now. Gives whether to tell the replicas.
    pub(crate) fn ends(&mut self, answered: u64) -> bool {
        if answered != self.answered {
            self.answered = answered;
            self.idle = 0;
            return false;
        }
        self.idle = self.idle.saturating_add(1);
        if self.idle < self.allowed {
            return false;
        }
        self.idle = 0;
        self.allowed = self.allowed.saturating_mul(2);
        true
    }
}
