//! Laws of patience.

ghost use Rattle.patience.specs.Laws.{TimeoutsTakeTime};

/// So many timeouts that may cost a signature take so long at least, whatever happened.
pub fn timeouts_take_time()
    ensures time { TimeoutsTakeTime }
{}
