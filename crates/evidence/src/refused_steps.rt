//! Laws that show what the definitions of reports and of a schedule's steps refuse.

ghost use Rattle.evidence.specs.RefusedSteps.{ReportsExist, ReportsAll, ReportsNoOther, ReportsInOrder, ReportsAreLinear, FirstOperationIsReported, FeedsWhatMayBeFed, FeedsWhatMayBeMade, FlushDeliversSealed, FlushDeliversSigned, SealedIsNewest, SignedIsNewest, AllowsWhatMayCome, AllowsNoOther};

/// Each trace has a report. It lists the trace's acceptances and no others, each with its position, in the order of
/// their positions, and the items that it lists of a run are legal, cover the run and are placed.
pub fn reports_are_exact()
    ensures exist { ReportsExist }
    ensures all { ReportsAll }
    ensures no_other { ReportsNoOther }
    ensures order { ReportsInOrder }
    ensures points { ReportsAreLinear }
{}

/// A report of a client's first operation at four replicas lists one acceptance: client 0's, of timestamp 1, after 49
/// entries, with the empty space's answer, and one item: that operation with this answer, at the position at which the
/// third replica executes it.
pub fn a_first_operation_is_reported()
    ensures reported { FirstOperationIsReported }
{}

/// A schedule feeds inputs to correct parties alone. It feeds a call only if its client has none open and its operation
/// is within the limits. Steps make frames of faulty parties alone, for 1 to 10 parties in ascending order, and sign
/// with the 64 leaves of a replica. After a schedule each such step is allowed, and no other.
pub fn steps_are_allowed()
    ensures inputs { FeedsWhatMayBeFed }
    ensures frames { FeedsWhatMayBeMade }
    ensures what_may_come { AllowsWhatMayCome }
    ensures no_other { AllowsNoOther }
{}

/// A flush delivers each frame that a step made. No output of an event before that step sends a frame after that one.
pub fn made_frames_are_delivered()
    ensures sealed { FlushDeliversSealed }
    ensures signed { FlushDeliversSigned }
    ensures seals_last { SealedIsNewest }
    ensures signs_last { SignedIsNewest }
{}
