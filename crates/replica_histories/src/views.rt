//! Laws of views: how a replica leaves its view and begins a later one.

ghost use Rattle.replica_histories.specs.PqSets.{PqSetsBegin, PqSetsGrow, PqSetsAreLists, NoBatchAdds, NoCommitAdds, BatchAdds, CommitAdds, LoggedAreSeen};
ghost use Rattle.replica_histories.specs.Received.{ReceivedBegin, ReceivedStays, SentBringNone, UnsignedBringNone, RefusedBringNone, ReceivedTakes, ReceivedOwn, HeldAreJoined, AheadAreHeld};
ghost use Rattle.replica_histories.specs.Views.{TicksAreReasons, ViewChangesFit, NewChangesAreOne, ViewChangesGoAgain, NewViewsEnter, NewViewsFit, NewViewsGoAgain, StartsMayAsk, ViewChangesCount};

/// A view change that the history determines, and that has a reason, may be sent if the log asks for no commit. The
/// replica is inactive then. A tick is a reason while a request waits or the replica is inactive; the last view change
/// may go again until a view begins. A received one counts if it is within its bounds, above the current view, and
/// newer than its sender's last (Castro and Liskov, TOCS 2002, on view changes).
pub fn views_change()
    ensures ticks { TicksAreReasons }
    ensures changes { ViewChangesFit }
    ensures one { NewChangesAreOne }
    ensures again { ViewChangesGoAgain }
    ensures count { ViewChangesCount }
{}

/// A new view that the replica takes, or sends as the primary of its view, begins that view: the log has its batches
/// within the marks after it, no votes, and the batches that were committed in earlier views. If its start is above the
/// executed state and the open transfer, the replica fetches the state there. The primary may send it again while it is
/// active in the view (Castro and Liskov, TOCS 2002, on view changes).
pub fn views_begin()
    ensures enter { NewViewsEnter }
    ensures fit { NewViewsFit }
    ensures again { NewViewsGoAgain }
    ensures ask { StartsMayAsk }
{}

/// For its view changes a replica keeps the batches that it logged and those that it committed, and each entry adds its
/// batches and own commits. If the log asks for no commit, these are the lists of a view change. The requests of logged
/// batches were seen (Castro and Liskov, TOCS 2002, on the sets P and Q of view changes).
pub fn pq_sets_are_kept()
    ensures begin { PqSetsBegin }
    ensures grow { PqSetsGrow }
    ensures lists { PqSetsAreLists }
    ensures no_batch { NoBatchAdds }
    ensures no_commit { NoCommitAdds }
    ensures batch { BatchAdds }
    ensures commit { CommitAdds }
    ensures seen { LoggedAreSeen }
{}

/// Of each other replica the latest view change that counted is stored, in a frame that was seen. One that is taken is
/// stored in its sender's place; a refused one, or other bytes, change nothing. Once f + 1 others are ahead, the
/// replica joins the least of their views (Castro and Liskov, TOCS 2002, on view changes).
pub fn changes_are_held()
    ensures begin { ReceivedBegin }
    ensures stay { ReceivedStays }
    ensures sent { SentBringNone }
    ensures unsigned { UnsignedBringNone }
    ensures refused { RefusedBringNone }
    ensures takes { ReceivedTakes }
    ensures own { ReceivedOwn }
    ensures joined { HeldAreJoined }
    ensures ahead { AheadAreHeld }
{}
