//! Laws of a replica in two parts: entries beside ordering count for nothing, and the parts are the whole.

ghost use Rattle.replica.specs.Idle.{ReadsAreIdle, WordsStay};
ghost use Rattle.replica.specs.PartedLaws.{DesksArePrompt, HoldsPart, PartsJoin, RunningReplicasArePrompt};
ghost use Rattle.replica.specs.Reads.{MarkedAreReplies, MarkedAreRequests, RepliesAreMarked};

/// If bytes with the marks of a read, or of a reply to one, say anything, they say that. Each reply to a read has its
/// marks.
pub fn marks_tell_reads()
    ensures requests { MarkedAreRequests }
    ensures replies { MarkedAreReplies }
    ensures marked { RepliesAreMarked }
{}

/// A history and the one without its reads certify the same. The reads bring nothing that counts.
pub fn reads_are_idle()
    ensures idle { ReadsAreIdle }
    ensures words { WordsStay }
{}

/// A desk and an orderer together hold exactly what a whole replica holds of a history.
pub fn parts_are_whole()
    ensures join { PartsJoin }
    ensures part { HoldsPart }
{}

/// A replica that has not stopped does all that it owes, to the end of the history that it fits.
pub fn running_replicas_are_prompt()
    ensures desks { DesksArePrompt }
    ensures replicas { RunningReplicasArePrompt }
{}
