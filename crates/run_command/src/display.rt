//! The progress of a run, shown while it runs.

use cluster_run::Watch;

// For so many seconds nothing is shown.
const PATIENCE: u64 = 2;

/// Shows on standard error how many operations are answered, on one line that is written again and again. It does so
/// if standard error is a terminal and the run takes longer than two seconds. The line is cleared at the end. If the
/// run is interrupted, the line stands whole, with its end, and tells how far the run came.
#[derive(Drop)]
pub struct Display<'a, R> {
    rt: &'a R,
    is_terminal: bool,
    total: usize,
    is_shown: bool,
}

impl<'a, R: Eprint> Display<'a, R> {
    /// The display of a run of so many operations.
    pub fn new(rt: &'a R, is_terminal: bool, total: usize) -> Display<'a, R> {
        Display {
            rt,
            is_terminal,
            total,
            is_shown: false,
        }
    }
}

impl<R: Eprint> Watch for Display<'_, R> {
    fn note(&mut self, seconds: u64, answered: u64) {
        if self.is_terminal && seconds >= PATIENCE {
            self.end();
            self.is_shown = true;
            let total = self.total;
            let _ = eprintln!(self.rt; "{answered} of {total} answered");
        }
    }

    fn end(&mut self) {
        if self.is_shown {
            self.is_shown = false;
            // Goes one line up, and clears that line.
            let _ = eprint!(self.rt; "\x1b[A\x1b[K");
        }
    }
}
