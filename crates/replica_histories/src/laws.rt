//! Laws of the events of a replica.

ghost use Rattle.replica_histories.specs.Events.{EventsEnd, HeldAreStabilized, KeptAreAbove};
ghost use Rattle.replica_histories.specs.Outputs.{PreparesFit, CommitsFit, BatchesFit, ExecutesFit, RepliesFit, CheckpointsFit, InstallationsFit, PreparesGoAgain, CommitsGoAgain, BatchesGoAgain, CheckpointsGoAgain};
ghost use Rattle.replica_histories.specs.Inputs.{InputsFit, CheckpointsEnter, TicksFit, BatchesCount, PreparesAreCounted, CommitsAreCounted, CheckpointsCount, RequestsCount, BatchesDrop, PreparesDrop, CommitsDrop, CheckpointsDrop, EarlyCheckpointsDrop, OthersDrop, InputsPass, TicksPass};
ghost use Rattle.replica_histories.specs.Marks.{MarksMove, InstallationsMove, CutsAskNoMore, StableAreLow, StableAreCut};
ghost use Rattle.replica_histories.specs.Histories.{FirstHold, HeldAreReplicas};
ghost use Rattle.replica_histories.specs.Transfers.{WantedByHistory, DigestsCount, PagesCount, AimsStay, AskedStays, OpenStays, OpenExecutes, DigestsTaken, DigestsOpen, DigestsMayAsk, PagesMayAsk, TicksMayAsk, PagesGiveBack, PagesRested, QuorumsWant, TransfersStart, TransfersMove, QuorumsOpen, LowerAreFetched, MayAskAny, NextsAreFirst, TransfersMayFetch, TransfersAsk, StartedRests, DigestsRest, PagesRest, RestedRests, TransfersInstall};
ghost use Rattle.replica_histories.specs.TransfersAnswers.{KeptAreOne, SnapshotsAreKept, KeptHaveSnapshots, FetchesCount, AnswersMayGo, OutgoingToOne, AnswersSuffice, NoneIsOwed, AnswersStay, AnswersTurn, AnswersInParts};
ghost use Rattle.replica_histories.specs.Questions.{OthersOweNoPart, OthersOweNone, NewRequestsOweNone};
ghost use Rattle.replica_histories.specs.Resending.{ResendingSuffices, WaitingAreNew};
ghost use Rattle.replica_histories.specs.TransfersQuorums.{QuorumsGrow, CountsStay, UnchangedBringNone, QuorumsFirst, QuorumsStay, QuorumsBegin, QuorumsGoOn, QuorumsEnd};
ghost use Rattle.replica_histories.specs.Fetching.{FetchesFit, DueFetchesFit, QuorumsMayAsk, HeldOweNoFetch, DigestsEnter, PagesEnter, AskedDigestsCount, AskedPagesCount, OtherDigestsOweNone, OtherPagesOweNone, FetchesSuffice, FetchedSuffice, TransfersChange};
ghost use Rattle.replica_histories.specs.Answering.{PartsFit, KeptFetchesCount, PartsSuffice, OtherNumbersOweNone, ReadsFit, ReadsSuffice, OtherOperationsOweNone};
ghost use Rattle.replica_histories.specs.Numbers.{FirstNumbersFit, LogsAreOfNoLaterView, LaterNumberNothing, ViewsBegin, NumbersStay, OthersKeepNumbers, BatchesKeepNumbers, NumbersFit, NextIsFree, RequestsFit, InputsKeepNumbers, StatesFit, ExecutionsRaise, NumbersAreAssigned, NumbersLeaveFewer, StatesLeaveNoMore};

/// An event ends if desk and log fit the history after its outputs, nothing is due, the replica owes nothing more and
/// the input is answered. Then they fit that history between events, and the next event may begin. Between events the
/// replica owes nothing.
pub fn events_end()
    ensures end { EventsEnd }
    ensures settled { HeldAreStabilized }
{}

/// Desk and log that fit a history fit the one with an output more. It is a prepare or commit that the log asks for;
/// the primary's own batch for a free number; the execution of the batch that the log has committed next; the first due
/// reply or checkpoint; or the installation of the state whose pages the open transfer has (Castro and Liskov, TOCS
/// 2002, on normal-case operation, garbage collection and state transfer).
pub fn outputs_fit()
    ensures prepares { PreparesFit }
    ensures commits { CommitsFit }
    ensures batches { BatchesFit }
    ensures executes { ExecutesFit }
    ensures replies { RepliesFit }
    ensures checkpoints { CheckpointsFit }
    ensures installations { InstallationsFit }
{}

/// The replica may send again its own votes and batches in the log, and a checkpoint that it sent. They change nothing.
pub fn own_go_again()
    ensures prepares { PreparesGoAgain }
    ensures commits { CommitsGoAgain }
    ensures batches { BatchesGoAgain }
    ensures checkpoints { CheckpointsGoAgain }
{}

/// Desk and log after an input fit, and begin an event.
pub fn inputs_fit()
    ensures got { InputsFit }
    ensures checkpoints { CheckpointsEnter }
    ensures ticked { TicksFit }
{}

/// An ordering message without a fault counts, and the log takes it; so does a checkpoint that is one of its sender's
/// latest then. A request counts if its reply is kept, or if it is newer than its client's last executed one and not
/// older than its waiting one.
pub fn messages_count()
    ensures batches { BatchesCount }
    ensures prepares { PreparesAreCounted }
    ensures commits { CommitsAreCounted }
    ensures checkpoints { CheckpointsCount }
    ensures requests { RequestsCount }
{}

/// An ordering message or checkpoint with a fault changes nothing, nor does a checkpoint that isn't one of its sender's
/// latest, or any other message.
pub fn messages_drop()
    ensures batches { BatchesDrop }
    ensures prepares { PreparesDrop }
    ensures commits { CommitsDrop }
    ensures checkpoints { CheckpointsDrop }
    ensures early_checkpoints { EarlyCheckpointsDrop }
    ensures others { OthersDrop }
{}

/// An input that changes nothing and makes nothing due passes with no output.
pub fn inputs_pass()
    ensures got { InputsPass }
    ensures ticked { TicksPass }
{}

/// A checkpoint that becomes stable moves the marks, and cuts the log; so does an installation. A cut log asks for no
/// more than before. Nothing above the low mark is stable (Castro and Liskov, TOCS 2002, on garbage collection).
pub fn marks_move()
    ensures marks { MarksMove }
    ensures installations { InstallationsMove }
    ensures asks { CutsAskNoMore }
    ensures stable { StableAreLow }
    ensures cut { StableAreCut }
{}

/// The opening state and a new log fit the empty history. Each history that desk and log fit between events is that of
/// a correct replica.
pub fn histories_are_replicas()
    ensures first { FirstHold }
    ensures replicas { HeldAreReplicas }
{}

/// A transfer wants the digests that the history has for the parts of its state, and such parts count (Castro and
/// Liskov, TOCS 2002, on state transfer).
pub fn parts_count()
    ensures wanted { WantedByHistory }
    ensures digests { DigestsCount }
    ensures pages { PagesCount }
{}

/// Any entry leaves the wanted root and the received digests. An entry that asks for no part and leaves the state
/// leaves the open transfer. An execution ends a transfer if it reaches the transfer's number.
pub fn transfers_stay()
    ensures aims { AimsStay }
    ensures asked { AskedStays }
    ensures open_ones { OpenStays }
    ensures executes { OpenExecutes }
{}

/// A transfer takes received digests, stays open and may ask on. A page that was asked for last is taken by an event
/// that goes on; one that is given back leaves all as it was. Pages that were not fetched may be put anew, if the
/// replica's own state changed.
pub fn parts_are_taken()
    ensures digests { DigestsTaken }
    ensures digests_open { DigestsOpen }
    ensures digests_ask { DigestsMayAsk }
    ensures pages { PagesMayAsk }
    ensures back { PagesGiveBack }
    ensures rested { PagesRested }
{}

/// If a quorum of checkpoints has a root above the executed state and the open transfer, a transfer to it starts, or
/// the open one moves to it. The replica owes nothing lower.
pub fn transfers_begin()
    ensures wanted { QuorumsWant }
    ensures start { TransfersStart }
    ensures moved { TransfersMove }
    ensures open_ones { QuorumsOpen }
    ensures lower { LowerAreFetched }
{}

/// A transfer asks for parts of a state that may be installed, each the first that differs from the state in place. It
/// is open after the fetch of its place, also if it asks again on a tick.
pub fn transfers_ask()
    ensures again { TicksMayAsk }
    ensures any { MayAskAny }
    ensures first { NextsAreFirst }
    ensures may { TransfersMayFetch }
    ensures ask { TransfersAsk }
{}

/// The pages that were not fetched stay those of the replica's state. If all held pages have the root, a state of these
/// pages may be installed.
pub fn transfers_install()
    ensures started { StartedRests }
    ensures digests { DigestsRest }
    ensures pages { PagesRest }
    ensures rested { RestedRests }
    ensures install { TransfersInstall }
{}

/// No two kept states have one number, and the kept snapshots are theirs, none below the low mark.
pub fn kept_are_one()
    ensures one { KeptAreOne }
    ensures snapshots { SnapshotsAreKept }
    ensures each { KeptHaveSnapshots }
    ensures above { KeptAreAbove }
{}

/// A fetch of a kept state counts, the requested part may be sent to whoever asked, and the replica owes nothing more
/// to it (Castro and Liskov, TOCS 2002, on state transfer).
pub fn fetches_are_answered()
    ensures counts { FetchesCount }
    ensures may { AnswersMayGo }
    ensures is_outgoing { OutgoingToOne }
    ensures suffice { AnswersSuffice }
    ensures unkept { NoneIsOwed }
    ensures stay { AnswersStay }
    ensures turn { AnswersTurn }
    ensures parts { AnswersInParts }
{}

/// An entry can complete a quorum only for the checkpoint that it brings. The replica fetches the root of each quorum
/// above the executed number in the event that completes the quorum. It fetches the start of a new view in the event
/// that takes the new view (Castro and Liskov, TOCS 2002, on state transfer).
pub fn quorums_are_fetched()
    ensures grow { QuorumsGrow }
    ensures same { CountsStay }
    ensures unchanged { UnchangedBringNone }
    ensures first { QuorumsFirst }
    ensures next { QuorumsStay }
    ensures begin { QuorumsBegin }
    ensures go_on { QuorumsGoOn }
    ensures end { QuorumsEnd }
{}

/// The fetch of a transfer that may ask fits, and leaves the transfer open. So does the due fetch, if a quorum of
/// checkpoints is above the executed state and the open transfer. Between events no fetch is due (Castro and Liskov,
/// TOCS 2002, on state transfer).
pub fn fetches_fit()
    ensures fetches { FetchesFit }
    ensures due { DueFetchesFit }
    ensures may { QuorumsMayAsk }
    ensures none { HeldOweNoFetch }
{}

/// A received part begins an event in which the open transfer may ask on with it. The part counts if the transfer asked
/// for it. Within an event another transfer that fits may replace the open one.
pub fn parts_enter()
    ensures digests { DigestsEnter }
    ensures pages { PagesEnter }
    ensures digests_count { AskedDigestsCount }
    ensures pages_count { AskedPagesCount }
    ensures change { TransfersChange }
{}

/// The replica owes nothing to a part that no open transfer awaits. For any other it is enough to ask for the next
/// part; or, if all held pages have the root, to reach the state's number, if the state can be installed (Castro and
/// Liskov, TOCS 2002, on state transfer).
pub fn parts_bring_on()
    ensures digests { OtherDigestsOweNone }
    ensures pages { OtherPagesOweNone }
    ensures fetches { FetchesSuffice }
    ensures fetched { FetchedSuffice }
{}

/// The part of a kept snapshot may be sent to whoever fetches it. The fetch counts, and the replica owes no more. If no
/// snapshot has the number, it owes nothing (Castro and Liskov, TOCS 2002, on state transfer).
pub fn parts_fit()
    ensures parts { PartsFit }
    ensures count { KeptFetchesCount }
    ensures suffice { PartsSuffice }
    ensures none { OtherNumbersOweNone }
{}

/// The reply to a read, from the executed state, may be sent once the read arrived, and the replica owes no more to it.
/// It owes nothing to an operation that is no read, or if nothing is asked (Castro and Liskov, TOCS 2002, on read-only
/// operations).
pub fn reads_fit()
    ensures reads { ReadsFit }
    ensures suffice { ReadsSuffice }
    ensures operations { OtherOperationsOweNone }
    ensures parts { OthersOweNoPart }
    ensures others { OthersOweNone }
{}

/// If a waiting request comes again, the replica owes its own new view, its own batches, votes and latest checkpoint,
/// or its own view change. For a request that doesn't wait it sends nothing again. A waiting request is newer than its
/// client's last executed one.
pub fn requests_come_again()
    ensures suffice { ResendingSuffices }
    ensures others { NewRequestsOweNone }
    ensures new { WaitingAreNew }
{}

/// Which waiting requests have a number is known from the start, and from each new view on that begins a view: the
/// requests in its batches have one. It stays known after each entry at the view's primary that assigns no number: all
/// but a pre-prepare of a free number, as long as no new view is taken. In views above the current one no request has a
/// number (Castro and Liskov, TOCS 2002, on normal-case operation and view changes).
pub fn numbers_stay()
    ensures first { FirstNumbersFit }
    ensures known { LogsAreOfNoLaterView }
    ensures later { LaterNumberNothing }
    ensures begin { ViewsBegin }
    ensures stay { NumbersStay }
    ensures others { OthersKeepNumbers }
    ensures batches { BatchesKeepNumbers }
{}

/// The next number, assigned to the oldest requests without one, numbers none of them twice. If it may not be assigned,
/// or all waiting requests have one, the replica owes no number (Castro and Liskov, TOCS 2002, on normal-case
/// operation). All have one after as many numbers as requests wait.
pub fn numbers_are_assigned()
    ensures fit { NumbersFit }
    ensures free { NextIsFree }
    ensures all { NumbersAreAssigned }
    ensures fewer { NumbersLeaveFewer }
{}

/// It stays known if a newer request waits, and if another state comes in which no client's last timestamp is lower,
/// such as the one after a batch.
pub fn waiting_keeps_numbers()
    ensures requests { RequestsFit }
    ensures inputs { InputsKeepNumbers }
    ensures states { StatesFit }
    ensures executions { ExecutionsRaise }
    ensures fewer { StatesLeaveNoMore }
{}
