//! Laws that show what the definitions of view changes, calls, dropped inputs and waiting requests refuse.

ghost use Rattle.evidence.specs.RefusedChanges.{ChangesAboveView, ChangesAboveEarlier, ChangesToNumbers, BatchEntriesPreparedInMarks, BatchEntriesProposedInMarks, BatchEntriesAscend, BatchEntriesDiffer, ChangesAgainLast, NoChangeAtFirst, NoChangeAtFrame, ChangesJoinEnough, ChangesJoinLeast, TicksMoveByOne, NoCallWhileOpen, CallsCount, CallsOperations, DropsWrites, DropsRequestsOfReplicas, DropsOldRequests, DropsPassedRequests, DropsPrePreparesOfBackups, DropsPrePreparesWhileInactive, DropsPrePreparesOutsideMarks, DropsSecondPrePrepares, DropsPreparesOfPrimaries, DropsPreparesWhileInactive, DropsSecondPrepares, DropsCommitsWhileInactive, DropsSecondCommits, DropsLowCheckpoints, DropsCheckpointsOfNoNumber, DropsSecondCheckpoints, DropsPassedCheckpoints, DropsLowChanges, DropsUnboundChanges, DropsPassedChanges, DropsNewViews, DropsFetches, DropsLowDigests, DropsLowPages, DropsOtherRoots, DropsOtherDigests, DropsOtherPages, WaitsOnceGot, WaitsOverFrames, WaitsUntilRun, WaitsNoLonger};

/// A right replica sends a new view change only for a view above its own, above those of its earlier ones and below
/// 2^48, with batch entries of numbers in the marks, the prepared ones ascending, and no digest of a number
/// pre-prepared twice. It sends no view change again but the last.
pub fn right_replicas_change_upwards()
    ensures views { ChangesAboveView }
    ensures earlier { ChangesAboveEarlier }
    ensures numbers { ChangesToNumbers }
    ensures prepared_marks { BatchEntriesPreparedInMarks }
    ensures proposed_marks { BatchEntriesProposedInMarks }
    ensures ascending { BatchEntriesAscend }
    ensures differing { BatchEntriesDiffer }
    ensures again { ChangesAgainLast }
{}

/// A right replica sends a new view change for a reason: at a tick for the next view, if something waits or it is
/// inactive; else if f + 1 others are ahead of it, for the least of their views.
pub fn right_replicas_change_for_a_reason()
    ensures first { NoChangeAtFirst }
    ensures frame { NoChangeAtFrame }
    ensures enough { ChangesJoinEnough }
    ensures least { ChangesJoinLeast }
    ensures ticks { TicksMoveByOne }
{}

/// A correct client of either kind has one call open at a time, counts its calls from 1 on, and calls only operations
/// within the limits.
pub fn correct_clients_call_in_turn()
    ensures calls { NoCallWhileOpen }
    ensures timestamps { CallsCount }
    ensures operations { CallsOperations }
{}

/// A correct replica answers no read-only request whose operation is no read. It answers no ordered request that a
/// replica sends, and none that is older than its client's last or than one that waits.
pub fn correct_replicas_drop_requests()
    ensures writes { DropsWrites }
    ensures replicas { DropsRequestsOfReplicas }
    ensures old { DropsOldRequests }
    ensures passed { DropsPassedRequests }
{}

/// A correct replica answers no pre-prepare that another than the primary sends, and none while it is not active in the
/// view. It answers none for a number that is outside the marks or logged.
pub fn correct_replicas_drop_proposals()
    ensures backups { DropsPrePreparesOfBackups }
    ensures inactive { DropsPrePreparesWhileInactive }
    ensures marks { DropsPrePreparesOutsideMarks }
    ensures second { DropsSecondPrePrepares }
{}

/// A correct replica answers no prepare by the primary, no prepare or commit while it is not active in the view, and no
/// second one of a replica for a view and number.
pub fn correct_replicas_drop_votes()
    ensures primaries { DropsPreparesOfPrimaries }
    ensures prepares { DropsPreparesWhileInactive }
    ensures second_prepares { DropsSecondPrepares }
    ensures commits { DropsCommitsWhileInactive }
    ensures second_commits { DropsSecondCommits }
{}

/// A correct replica answers no checkpoint at or below the low mark, of a number at or above 2^48, of one that its
/// sender's checkpoints have, or below the three that are kept of the sender.
pub fn correct_replicas_drop_checkpoints()
    ensures low { DropsLowCheckpoints }
    ensures numbers { DropsCheckpointsOfNoNumber }
    ensures second { DropsSecondCheckpoints }
    ensures passed { DropsPassedCheckpoints }
{}

/// A correct replica answers no view change at or below its view, beyond its bounds, or not above an earlier one of the
/// sender, and no new view that it does not take.
pub fn correct_replicas_drop_changes()
    ensures low { DropsLowChanges }
    ensures bounds { DropsUnboundChanges }
    ensures passed { DropsPassedChanges }
    ensures new_views { DropsNewViews }
{}

/// A correct replica answers no fetch of a number of which it keeps no state. It answers no digests or page of a number
/// that its state has reached. It answers none whose digest differs from the one that the checkpoints or a new view,
/// and the parts above it, give.
pub fn correct_replicas_drop_parts()
    ensures fetches { DropsFetches }
    ensures low_digests { DropsLowDigests }
    ensures low_pages { DropsLowPages }
    ensures roots { DropsOtherRoots }
    ensures digests { DropsOtherDigests }
    ensures pages { DropsOtherPages }
{}

/// At a right replica a client's newest request waits from when the replica receives it, also over an installation. It
/// waits until it or a newer one of the client ran, and no longer.
pub fn right_replicas_keep_requests_waiting()
    ensures got { WaitsOnceGot }
    ensures frames { WaitsOverFrames }
    ensures until { WaitsUntilRun }
    ensures longer { WaitsNoLonger }
{}
