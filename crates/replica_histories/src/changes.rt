//! Laws of a replica's view-change data.

ghost use Rattle.replica_histories.specs.Changes.{ChangesBegin, ChangesStay, CheckpointsAreNoted, CheckpointsAreLatest, CommitsEnterP, BatchesEnterQ, ChangesAreSent, ChangesAreTaken, ChangesFollowNewViews, SentKeep, SilentKeep, GotKeep, ReceivedKeep, OthersBringNone, ReceivedAreSigned, OwnAreSigned, PqSetsAreAbove, OutputsPass, InputsEnter, AllAreSpent, NextLeafIsOwn};
ghost use Rattle.replica_histories.specs.Primaries.{QSelectsNothing, FewerSelectNothing, NoViewsAreLeft};

/// The logs fit the histories before and after each entry.
pub fn entries_pass()
    ensures outputs { OutputsPass }
    ensures inputs { InputsEnter }
{}

/// Which entries change no view-change data: messages that were sent or logged before; silent entries; and received
/// bytes that are no view change, and no pre-prepare or one of which the log takes no batch. The senders of received
/// view changes signed them, and the replica signs its own.
pub fn entries_keep_changes()
    ensures sent { SentKeep }
    ensures silent { SilentKeep }
    ensures got { GotKeep }
    ensures authentic { ReceivedKeep }
    ensures others { OthersBringNone }
    ensures signed { ReceivedAreSigned }
    ensures own { OwnAreSigned }
{}

/// A replica's view-change data fit its history from entry to entry. They stay if an entry changes nothing. Each
/// batch that is logged or committed enters Q or P (Castro and Liskov, TOCS 2002, on view changes).
pub fn changes_stay()
    ensures begin { ChangesBegin }
    ensures stay { ChangesStay }
    ensures above { PqSetsAreAbove }
    ensures commits { CommitsEnterP }
    ensures batches { BatchesEnterQ }
{}

/// The checkpoint of the executed state is the replica's latest once it is sent, and the data note it.
pub fn checkpoints_are_noted()
    ensures noted { CheckpointsAreNoted }
    ensures latest { CheckpointsAreLatest }
{}

/// The data have the view changes that the replica sends and takes, and the new view that begins its view.
pub fn changes_are_made()
    ensures sent { ChangesAreSent }
    ensures taken { ChangesAreTaken }
    ensures entered { ChangesFollowNewViews }
{}

/// Leaves sign in their order: the next one has signed no sent frame, and each one before it has signed one. So the
/// keys are spent once 64 are.
pub fn leaves_are_spent()
    ensures all { AllAreSpent }
    ensures next { NextLeafIsOwn }
{}

/// A primary may select nothing over its stored view changes for the view that it moves to, with a batch of each
/// digest in Q. Then it has no new view left to send by its history (Castro and Liskov, TOCS 2002, on view changes).
pub fn no_views_are_left()
    ensures in_q { QSelectsNothing }
    ensures fewer { FewerSelectNothing }
    ensures none { NoViewsAreLeft }
{}
