//! Laws that show that the definitions are not empty.

ghost use Rattle.evidence.specs.Examples.{FirstBatchExecutes, FirstCallIsRun, PreparedIsSelected, EmptyIsNotSelected, NullIsNotSelected, LieIsNotSelected, TruthWaits, TruthIsSelected};
ghost use Rattle.evidence.specs.ExamplesOfAnswers.{FirstReadIsAnswered, FirstFetchIsAnswered};
ghost use Rattle.evidence.specs.ExamplesOfTransfer.{TransferBegins};
ghost use Rattle.evidence.specs.ExamplesOfKept.{KeptReplyGoesAgain};
ghost use Rattle.evidence.specs.ExamplesOfChanges.{ViewChangesAreJoined, ItsViewBegins, NewViewsAreTaken};
ghost use Rattle.evidence.specs.FirstOperation.{FirstOperationIsRun, FirstOperationIsCommitted, FirstOperationIsUnforged, FirstOperationIsFed, FirstFramesExist};

/// Of four replicas a backup that gets the primary's pre-prepare of the first batch, one more prepare and two more
/// commits holds it committed, and executing it then is right.
pub fn a_first_batch_executes()
    ensures executes { FirstBatchExecutes }
{}

/// A client's first call, before anything has come, is a run.
pub fn a_first_call_is_a_run()
    ensures run { FirstCallIsRun }
{}

/// A batch that three replicas hold prepared is selected over a view change, and the new view is refused without it and
/// with the null batch in its place (Castro and Liskov, TOCS 2002, on view changes).
pub fn a_prepared_batch_is_selected()
    ensures selected { PreparedIsSelected }
    ensures empty { EmptyIsNotSelected }
    ensures null { NullIsNotSelected }
{}

/// One replica that lists another batch as prepared gets it selected in no case; over its view change and two others
/// nothing is selected, and with a third the prepared batch is.
pub fn one_lie_is_not_selected()
    ensures lie { LieIsNotSelected }
    ensures waits { TruthWaits }
    ensures truth { TruthIsSelected }
{}

/// A client's first operation at four replicas, whole, is a run: the call, its request at each replica, the three
/// phases, the executions, the replies, and the acceptance at the third of them.
pub fn a_first_operation_is_a_run()
    ensures run { FirstOperationIsRun }
{}

/// At the end of a client's first operation at four replicas, whole, each of them holds its batch committed.
pub fn a_first_operation_is_committed()
    ensures committed { FirstOperationIsCommitted }
{}

/// No message of a client's first operation at four replicas is forged.
pub fn a_first_operation_is_unforged()
    ensures unforged { FirstOperationIsUnforged }
{}

/// The schedule that calls the operation and then delivers all frames feeds it.
pub fn a_first_operation_is_fed()
    ensures fed { FirstOperationIsFed }
{}

/// Whatever is written, there are frames of the first operation, each with the MACs that its sender makes.
pub fn first_frames_exist()
    ensures exist { FirstFramesExist }
{}

/// A replica that answers the first read that it gets, from the empty space, is a right one.
pub fn a_first_read_is_answered()
    ensures read { FirstReadIsAnswered }
{}

/// One that answers a fetch of the root of the opening state with the digests below is a right one.
pub fn a_first_fetch_is_answered()
    ensures fetch { FirstFetchIsAnswered }
{}

/// A replica that is behind and asks for the root at the third checkpoint that has it, and at each part that it
/// gets for the next, is a right one.
pub fn a_transfer_begins()
    ensures begins { TransferBegins }
{}

/// A replica that gets a request again that ran, and sends its client's kept reply again, is a right one.
pub fn a_kept_reply_goes_again()
    ensures again { KeptReplyGoesAgain }
{}

/// A replica that joins the view changes of two others in the beginning, with what its own history says, is a right
/// one.
pub fn view_changes_are_joined()
    ensures joined { ViewChangesAreJoined }
{}

/// The primary of view 1 that joins two others so, and then sends the new view over all three view changes, is a right
/// one.
pub fn a_view_begins()
    ensures begins { ItsViewBegins }
{}

/// A backup that takes the first new view in the beginning, and prepares its batch, is a right replica.
pub fn a_new_view_is_taken()
    ensures taken { NewViewsAreTaken }
{}
