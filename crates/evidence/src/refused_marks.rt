//! Laws that show what the definitions of a new view's view changes, of the low mark and of checkpoints refuse.

ghost use Rattle.evidence.specs.RefusedMarks.{TakesWellFounded, LowIsNoLower, LowIsMarked, FirstCheckpointCounts, NewCheckpointCounts, CheckpointsStay, CheckpointsAreFew, CheckpointsDescend, CheckpointsWereBrought};

/// A new view is not taken with bytes that are no view change, signed by its sender, with a sender twice or out of
/// order, with a view change for another view or beyond its bounds, or with a start that is not at or above the low
/// marks of a quorum or that no `f + 1` replicas list.
pub fn new_views_are_well_founded()
    ensures founded { TakesWellFounded }
{}

/// The low mark is at least the number of each checkpoint that is or was stable, and of each state that was installed.
/// It is at least the start of each new view that was taken. It is 0 or one of these numbers. A checkpoint is stable if
/// `2f + 1` different replicas have it alike, the replica itself among them.
pub fn low_marks_are_certified()
    ensures lower { LowIsNoLower }
    ensures marked { LowIsMarked }
{}

/// Of a sender's checkpoints of one number the first counts, and of all those of the three greatest numbers, from
/// the greatest down. Each of them was brought by an entry, and has a number below 2^48.
pub fn first_checkpoints_of_three_numbers_count()
    ensures first { FirstCheckpointCounts }
    ensures new { NewCheckpointCounts }
    ensures stay { CheckpointsStay }
    ensures few { CheckpointsAreFew }
    ensures descend { CheckpointsDescend }
    ensures brought { CheckpointsWereBrought }
{}
