//! Laws that show what the definitions refuse: each is a small history, or a part of one, that a wrong body would make.

ghost use Rattle.evidence.specs.Refused.{SealsWell, SignsWell, PrePreparesAsPrimary, PrePreparesInMarks, NoPrePrepareAfterChange, CheckpointsMultiples, BeginsAsPrimary, ReadsWhatWasAsked, DigestsToWhoAsked, PagesToWhoAsked, NumbersNoneTwice, NumbersNoneTogether, RepliesOfExecuted, ExecutesWhatIsCommitted, SendsKeptDigests, SendsKeptPages, SendsAskedDigests, SendsAskedPages, RepliesWhatRan, RepliesToWhoAsked, AnswersDigestFetches, AnswersPageFetches, AnswersAgain, AnswersRan, PreparesLogged, CommitsPrepared, ExecutesCommitted, NumbersWaiting, SendsCheckpoints, FetchesAhead, FetchesStarts, FetchesAgain, ProposesAuthentic, ReadsNewest, NoChangeWhileActive, AnswersReads, DropsReplies, DropsOwnFrames, FetchesWhatIsWanted, FetchesAbove, FetchesNewest, FetchesOnce, FetchesWhatIsTold, FetchesWhatDiffers, DropsUnaskedDigests, DropsUnaskedPages, RepliesAfterExecution, NoCommitAfterChange, NoPrepareAfterChange, NoEarlyCheckpoint, OnePrePrepare, SkipsNoNumber, GoesBackToNoNumber, PrePreparesNearby, NoPrepareByPrimary, ExecutesNext, KeepsPrepared, InstallsWhatItHas, InstallsWithHeader, RepliesToItsClient, CommitsToAll, TakesWellSelected, TakesNoLower, RunsOnce, AcceptsAtQuorum, SignsOnceByLeaf, SendsNoFrameTwice, AsksOn, InstallsFetched, MovesForReasons};
ghost use Rattle.evidence.specs.RefusedNewViews.{SendsNewViews, BeginsItsView};
ghost use Rattle.evidence.specs.RefusedResending.{SendsPreparesAgain, SendsCommitsAgain, SendsBatchesAgain, SendsNewViewsAgain, SendsCheckpointsAgain, SendsChangesAgain};

/// A right replica sends no ordered reply before anything is executed. It sends no commit or prepare of a view after a
/// view change for a later view. It sends no checkpoint of a number that it never executed, or that is no multiple of
/// the period. As the primary it sends no prepare. It sends a read-only reply only to a read that it received, with the
/// newest state's answer and number. It sends no view change again while it is active. It asks only for parts of a
/// state above its own, whose root a quorum of checkpoints or a new view's start told.
pub fn right_replicas_do_not_send()
    ensures replies { RepliesAfterExecution }
    ensures commits { NoCommitAfterChange }
    ensures prepares { NoPrepareAfterChange }
    ensures checkpoints { NoEarlyCheckpoint }
    ensures multiples { CheckpointsMultiples }
    ensures primaries { NoPrepareByPrimary }
    ensures numbers_read { ReadsNewest }
    ensures reads { ReadsWhatWasAsked }
    ensures view_changes { NoChangeWhileActive }
    ensures fetches { FetchesWhatIsWanted }
    ensures fetches_above { FetchesAbove }
{}

/// A right replica fetches no state below the newest that it fetched, asks for one part at a time, and for none below
/// the root before it got the digests of the root's children. It asks for no inner part that agrees with the pages in
/// place.
pub fn right_replicas_fetch_what_differs()
    ensures newest { FetchesNewest }
    ensures once { FetchesOnce }
    ensures told { FetchesWhatIsTold }
    ensures differs { FetchesWhatDiffers }
{}

/// A right replica sends a pre-prepare only as the view's primary, and a new view only as that view's primary. It
/// pre-prepares no number outside the marks, none after a view change for a later view, and none twice in a view. It
/// proposes no request that is not authentic to it. It skips no number above the low mark, goes back to none, and gives
/// none more than two above the executed one.
pub fn right_primaries_propose()
    ensures primaries { PrePreparesAsPrimary }
    ensures marks { PrePreparesInMarks }
    ensures active { NoPrePrepareAfterChange }
    ensures once { OnePrePrepare }
    ensures skips { SkipsNoNumber }
    ensures back { GoesBackToNoNumber }
    ensures nearby { PrePreparesNearby }
    ensures requests { ProposesAuthentic }
    ensures new_views { BeginsAsPrimary }
{}

/// A right replica skips no number, executes nothing that is not committed, and leaves no prepared batch out of a view
/// change. It installs no state with a page that it neither held nor received. So it installs none without a header
/// page of its number.
pub fn right_replicas_do_not_skip()
    ensures executes { ExecutesNext }
    ensures committed { ExecutesWhatIsCommitted }
    ensures changes { KeepsPrepared }
    ensures installs { InstallsWhatItHas }
    ensures headers { InstallsWithHeader }
{}

/// A right replica gives no digests and no page of a state that it does not keep, nor any that nobody asked for. It
/// sends an ordered reply only for a request that ran in the event, or the kept one if the event's input is that
/// request. So if it installed nothing, it executed the batch of the reply's number, and that batch has the request.
pub fn right_replicas_send_what_they_have()
    ensures digests { SendsKeptDigests }
    ensures pages { SendsKeptPages }
    ensures asked_digests { SendsAskedDigests }
    ensures asked_pages { SendsAskedPages }
    ensures replies { RepliesWhatRan }
    ensures replies_asked { RepliesToWhoAsked }
    ensures replies_executed { RepliesOfExecuted }
{}

/// A correct replica that goes on answers in the event of each input. It answers a read from its executed state, and a
/// fetch of a part of a kept state. It replies to the requests that ran in the event, and to one that comes again with
/// the last timestamp.
pub fn correct_replicas_answer()
    ensures reads { AnswersReads }
    ensures digests { AnswersDigestFetches }
    ensures pages { AnswersPageFetches }
    ensures again { AnswersAgain }
    ensures ran { AnswersRan }
{}

/// A correct replica that goes on does all of the following. As an active backup it prepares each batch that it logs in
/// the event. It commits each batch that becomes prepared, and executes each committed batch that comes next. As the
/// active primary it numbers the requests that wait, none of them twice in a view or in a batch. It sends a checkpoint
/// of each multiple of the period that it executes. It begins a state transfer if a quorum of checkpoints, or the start
/// of a new view, is ahead. At a part that its transfer awaits it asks for the next one, or installs the state. At a
/// tick it sends the last fetch of an open transfer again. If it has a reason to move to a view, it sends a view change
/// for that view or a later one. It need not if no frame says one, or if its keys are spent.
pub fn correct_replicas_go_on()
    ensures prepares { PreparesLogged }
    ensures commits { CommitsPrepared }
    ensures executes { ExecutesCommitted }
    ensures numbers { NumbersWaiting }
    ensures numbers_once { NumbersNoneTwice }
    ensures numbers_together { NumbersNoneTogether }
    ensures checkpoints { SendsCheckpoints }
    ensures fetches { FetchesAhead }
    ensures starts { FetchesStarts }
    ensures again { FetchesAgain }
    ensures asks { AsksOn }
    ensures installs { InstallsFetched }
    ensures moves { MovesForReasons }
{}

/// When a waiting request comes again, a correct replica that goes on sends again its messages for numbers in the marks
/// that aren't executed. These are its prepares, its commits, and as the primary the batches that no new view has. With
/// them go the new view by which it began its view, and its latest checkpoint. An inactive replica sends its view
/// change again.
pub fn correct_replicas_send_again()
    ensures prepares { SendsPreparesAgain }
    ensures commits { SendsCommitsAgain }
    ensures batches { SendsBatchesAgain }
    ensures new_views { SendsNewViewsAgain }
    ensures checkpoints { SendsCheckpointsAgain }
    ensures changes { SendsChangesAgain }
{}

/// A correct replica that goes on sends the new view as the primary of the view that it moves to. It does so once it
/// has the view changes and the batches for one, unless its keys are spent. In the beginning it does so once it has its
/// own view change and those of two others.
pub fn correct_primaries_begin_views()
    ensures new_views { SendsNewViews }
    ensures first { BeginsItsView }
{}

/// A right replica seals a reply for its client alone, a part of a state for one replica that asked for it, and a
/// commit for each other replica. Each MAC is that of the body for its receiver. Each signature is its own, by a leaf
/// that signs no other frame. It sends no frame twice in one event.
pub fn right_replicas_address_all()
    ensures replies { RepliesToItsClient }
    ensures digests { DigestsToWhoAsked }
    ensures pages { PagesToWhoAsked }
    ensures commits { CommitsToAll }
    ensures macs { SealsWell }
    ensures signatures { SignsWell }
    ensures leaves { SignsOnceByLeaf }
    ensures once { SendsNoFrameTwice }
{}

/// A correct replica answers no part of a state that it did not ask for last, no reply, and no frame in its own name.
pub fn correct_replicas_drop()
    ensures digests { DropsUnaskedDigests }
    ensures pages { DropsUnaskedPages }
    ensures replies { DropsReplies }
    ensures own { DropsOwnFrames }
{}

/// A replica takes no new view over too few view changes, or over some for another view. It takes none that leaves out
/// a number prepared in one of them. It takes none with a batch that fewer than `2f + 1` have nothing against, or that
/// fewer than `f + 1` vouch for. It takes none below a view change that it sent.
pub fn new_views_meet_rules()
    ensures selected { TakesWellSelected }
    ensures lower { TakesNoLower }
{}

/// A request that ran in a batch does nothing in a later one.
pub fn requests_run_once()
    ensures once { RunsOnce }
{}

/// A right client accepts only if `2f + 1` different replicas answered the call alike, in mode, number and answer.
pub fn right_clients_wait()
    ensures quorum { AcceptsAtQuorum }
{}
