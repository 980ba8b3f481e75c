//! Evidence that the outputs which correct parties owe are enough for progress: laws over all runs, from the protocol's
//! definitions of what a correct replica owes and of what a correct client gives.
//!
//! # What is proved
//!
//! In the runs of all laws no correct party has stopped, and no message of one is forged. If a law compares states, no
//! two texts of the run have one digest either: agreement has the same premises. Delivery is a property of a part of a
//! trace: the receivers of each frame that correct parties send in the part get it in the part, in any order. A
//! schedule whose last step is a flush delivers so ([`flushes_deliver_all`]).
//!
//! - If `2f + 1` correct replicas keep the reply to a call, its client accepts the answer, once time goes by at the
//!   client and all is delivered ([`executed_calls_are_accepted`]). As a schedule, from any world that is reached, that
//!   is a tick and a flush ([`flushes_bring_answers`]). It stands on two laws of their own: ordered replies of correct
//!   replicas to one request agree ([`ordered_replies_agree`]), and a client accepts at once
//!   ([`clients_accept_at_once`]).
//! - A read is accepted, if `2f + 1` correct replicas stay at one executed number while all is delivered
//!   ([`reads_are_accepted`]).
//! - The normal case. Let each correct replica be active in a view whose primary is correct, with the same executed
//!   number and nothing logged for the next one. Then each executes the batch that the primary assigns to that number
//!   ([`next_batches_are_executed`]), and a call whose request stands in the batch is accepted
//!   ([`normal_calls_are_accepted`]). Batches of requests that correct clients sealed are authentic to each replica
//!   ([`correct_requests_are_genuine`]). The active primary numbers a call that its client asks again, while a number
//!   is free ([`open_calls_are_numbered`]).
//! - Lost frames. If all that correct parties ever sent is delivered again ([`redeliveries_deliver_all`]), each correct
//!   replica, whatever it missed, executes all numbers that the primary assigned ([`given_numbers_are_executed`]). A
//!   call whose request stands in one of these batches is accepted ([`given_calls_are_accepted`]). As a schedule, that
//!   is all frames again and a flush, and then a tick and a flush ([`redeliveries_bring_answers`]).
//! - If no view changes at all, the numbers may leave the marks meanwhile, as checkpoints become stable
//!   ([`first_numbers_are_executed`], [`first_calls_are_accepted`]): no low mark is above the executed number then.
//!   Each open call is accepted, whether it has a number or waits ([`every_call_is_accepted`]).
//! - A view change, piece by piece. Whatever a replica has logged and prepared, some view change says it
//!   ([`view_changes_exist`]), within its bounds ([`view_changes_are_within`]). So a replica at which a request waits,
//!   or which is inactive, leaves its view as time goes by, if a frame has room for the view change
//!   ([`waiting_replicas_leave`]). A primary that left for its view begins it, if a new view meets the rules over what
//!   it has ([`primaries_begin_views`]). One does if the latest view changes of `2f + 1` replicas have nothing prepared
//!   above one checkpoint that they all list ([`unprepared_views_begin`]). One does too if those of `2f + 1`
//!   correct replicas have one low mark and one checkpoint there, and the primary has all batches that they prepared
//!   above it ([`prepared_views_begin`]). Each correct replica that left for no later view enters a view that its
//!   primary begins ([`new_views_are_entered`]).
//! - A view change as a whole. Let each correct replica have left for a view, with one low mark, and let its primary be
//!   correct and have what they prepared. Then each is active in that view once all is delivered
//!   ([`next_views_are_entered`]). As all is delivered again, each executes what the new view has and what the primary
//!   assigns from then on ([`assigned_numbers_are_executed`]). So every open call is accepted, if the view goes on
//!   ([`calls_outlive_changes`]).
//! - The first view change with fewer premises: nothing is ever pre-prepared in the first view. So it is if the faulty
//!   replicas are silent and its primary is one of them ([`faulty_primaries_are_silent`]). If a request waits at each
//!   correct replica and time goes by there, each comes into the second view ([`silent_views_are_left`]). While that
//!   goes on, every open call is accepted ([`second_calls_are_accepted`]). So an open call outlives a silent first
//!   primary ([`calls_outlive_silence`]).
//!
//! # What is not
//!
//! It is a premise that timeouts are long enough: no correct replica leaves for a view above the one that is followed.
//! There are more premises outside a silent first view: correct replicas leave with one low mark, the next primary has
//! each batch that one of them prepared, a view change fits a frame, and the primary numbers without gaps. In the laws
//! of one view each correct replica stays active in it, as `protocol::first_view_stays` says of the first view if no
//! correct replica sends a view change. Outside the first two views, what the primary assigns to a waiting request is
//! left to it, and the numbers stay within the marks of each correct replica, so no checkpoint among them or above
//! becomes stable meanwhile. No state is installed. That parties get memory, and that frames come, are premises.
#![tactic(auto)]

ghost use Rattle.progress.specs.Answered.{OrderedRepliesAgree, OpenCallsLackQuorums, ExecutedCallsAreAccepted};
ghost use Rattle.progress.specs.Flushed.{FlushesDeliverAll, FlushesBringAnswers};
ghost use Rattle.progress.specs.Reading.{ReadsAreAccepted};
ghost use Rattle.progress.specs.Normal.{CorrectRequestsAreGenuine, NextBatchesAreExecuted, NormalCallsAreAccepted};
ghost use Rattle.progress.specs.Waiting.{OpenCallsAreNumbered};
ghost use Rattle.progress.specs.FirstView.{FirstNumbersAreExecuted, FirstCallsAreAccepted};
ghost use Rattle.progress.specs.EveryCall.{EveryCallIsAccepted};
ghost use Rattle.progress.specs.Leaving.{ViewChangesExist, ViewChangesAreWithin, WaitingReplicasLeave, PrimariesBeginViews, UnpreparedViewsBegin, PreparedViewsBegin, NewViewsAreEntered};
ghost use Rattle.progress.specs.Changing.{NextViewsAreEntered};
ghost use Rattle.progress.specs.Assigned.{AssignedNumbersAreExecuted};
ghost use Rattle.progress.specs.NextView.{CallsOutliveChanges};
ghost use Rattle.progress.specs.SilentView.{SilentViewsAreLeft, FaultyPrimariesAreSilent};
ghost use Rattle.progress.specs.SecondView.{SecondCallsAreAccepted, CallsOutliveSilence};
ghost use Rattle.progress.specs.Redelivered.{RedeliveriesDeliverAll, GivenNumbersAreExecuted, GivenCallsAreAccepted, RedeliveriesBringAnswers};

/// Two ordered replies of correct replicas to one request of a correct client agree in number and answer.
pub fn ordered_replies_agree()
    ensures agree { OrderedRepliesAgree }
{}

/// A client that has not stopped accepts at once: while its call is open, no `2f + 1` replies agree.
pub fn clients_accept_at_once()
    ensures lack { OpenCallsLackQuorums }
{}

/// If `2f + 1` correct replicas keep the reply to a call, its client accepts the answer, once time goes by there and
/// all is delivered (Castro and Liskov, TOCS 2002, on the client).
pub fn executed_calls_are_accepted()
    ensures accepted { ExecutedCallsAreAccepted }
{}

/// Steps whose last one is a flush deliver all frames that are sent in them.
pub fn flushes_deliver_all()
    ensures all { FlushesDeliverAll }
{}

/// So a tick of the client and a flush bring the answer to a call whose reply `2f + 1` correct replicas keep.
pub fn flushes_bring_answers()
    ensures answers { FlushesBringAnswers }
{}

/// A read is accepted, if `2f + 1` correct replicas stay at one executed number while all is delivered (Castro and
/// Liskov, TOCS 2002, on read-only operations).
pub fn reads_are_accepted()
    ensures accepted { ReadsAreAccepted }
{}

/// A batch of requests that correct clients sealed is authentic to each correct replica.
pub fn correct_requests_are_genuine()
    ensures genuine { CorrectRequestsAreGenuine }
{}

/// Each correct replica executes the batch that the correct primary of a view assigns to the next number (Castro and
/// Liskov, TOCS 2002, on normal-case operation).
pub fn next_batches_are_executed()
    ensures executed { NextBatchesAreExecuted }
{}

/// So a call whose request stands in that batch is accepted, once its client asks again.
pub fn normal_calls_are_accepted()
    ensures accepted { NormalCallsAreAccepted }
{}

/// The active primary numbers a call that its client asks again, while a number is free.
pub fn open_calls_are_numbered()
    ensures numbered { OpenCallsAreNumbered }
{}

/// Steps that deliver all frames again, and then all that is left, deliver all that was ever sent.
pub fn redeliveries_deliver_all()
    ensures all { RedeliveriesDeliverAll }
{}

/// If all that was ever sent is delivered again, each correct replica executes all numbers that the primary assigned.
pub fn given_numbers_are_executed()
    ensures executed { GivenNumbersAreExecuted }
{}

/// So a call whose request stands in one of these batches is accepted, once its client asks again.
pub fn given_calls_are_accepted()
    ensures accepted { GivenCallsAreAccepted }
{}

/// As a schedule: all frames again and a flush, and then a tick of the client and a flush.
pub fn redeliveries_bring_answers()
    ensures answers { RedeliveriesBringAnswers }
{}

/// In the first view the same holds of numbers that leave the marks, as checkpoints become stable.
pub fn first_numbers_are_executed()
    ensures executed { FirstNumbersAreExecuted }
{}

/// So a call whose request stands in one of these batches is accepted, once its client asks again.
pub fn first_calls_are_accepted()
    ensures accepted { FirstCallsAreAccepted }
{}

/// While the first view goes on, every open call of a correct client is accepted.
pub fn every_call_is_accepted()
    ensures accepted { EveryCallIsAccepted }
{}

/// Whatever a replica has logged and prepared, some view change says it.
pub fn view_changes_exist()
    ensures exist { ViewChangesExist }
{}

/// That view change is within its bounds.
pub fn view_changes_are_within()
    ensures within { ViewChangesAreWithin }
{}

/// A replica at which a request waits too long leaves its view.
pub fn waiting_replicas_leave()
    ensures leave { WaitingReplicasLeave }
{}

/// A primary that has what a new view needs begins its view.
pub fn primaries_begin_views()
    ensures begin { PrimariesBeginViews }
{}

/// It has that if 2f + 1 replicas have nothing prepared above one checkpoint.
pub fn unprepared_views_begin()
    ensures begin { UnpreparedViewsBegin }
{}

/// It also has that if it has the view changes of 2f + 1 correct replicas with one low mark, and what they prepared.
pub fn prepared_views_begin()
    ensures begin { PreparedViewsBegin }
{}

/// Each correct replica that left for no later view enters a view that its primary begins.
pub fn new_views_are_entered()
    ensures entered { NewViewsAreEntered }
{}

/// If each correct replica has left for a view whose primary is correct and has what they prepared, each enters it.
pub fn next_views_are_entered()
    ensures entered { NextViewsAreEntered }
{}

/// Each correct replica executes the batches of a new view, and what its primary assigns from then on.
pub fn assigned_numbers_are_executed()
    ensures executed { AssignedNumbersAreExecuted }
{}

/// So a call outlives a view change, if the view goes on for which each correct replica has left.
pub fn calls_outlive_changes()
    ensures accepted { CallsOutliveChanges }
{}

/// Each correct replica leaves a silent first view, and enters the second one.
pub fn silent_views_are_left()
    ensures left { SilentViewsAreLeft }
{}

/// If the faulty replicas are silent, and the first primary is one of them, the first view is silent.
pub fn faulty_primaries_are_silent()
    ensures silent { FaultyPrimariesAreSilent }
{}

/// While the second view goes on after a silent first one, every open call of a correct client is accepted.
pub fn second_calls_are_accepted()
    ensures accepted { SecondCallsAreAccepted }
{}

/// So a call outlives a silent first view: it is accepted in the second one.
pub fn calls_outlive_silence()
    ensures accepted { CallsOutliveSilence }
{}
