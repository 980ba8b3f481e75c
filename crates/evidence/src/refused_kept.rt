//! Laws that show what the definition of the kept states refuses, in parts of states and in view changes.

ghost use Rattle.evidence.specs.RefusedKept.{SendsNoLowDigests, SendsNoLowPages, ChangesFromLowMark, ListsNoneBelow, ListsSnapshots, ListsEachSnapshot, CheckpointsAscend};

/// A right replica gives no digests and no page of a number below its low mark.
pub fn right_replicas_send_no_low_parts()
    ensures digests { SendsNoLowDigests }
    ensures pages { SendsNoLowPages }
{}

/// A right replica's new view change says its low mark, and lists, in ascending order, a checkpoint of each number
/// at or above it that is 0, or a multiple of the period that it executed, or that it installed, and of no other
/// number.
pub fn right_replicas_list_checkpoints()
    ensures marks { ChangesFromLowMark }
    ensures below { ListsNoneBelow }
    ensures snapshots { ListsSnapshots }
    ensures each { ListsEachSnapshot }
    ensures ascending { CheckpointsAscend }
{}
