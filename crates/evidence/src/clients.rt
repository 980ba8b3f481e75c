//! Laws of the definitions of clients and of parties that stop: which replies count, when a client gives nothing, what
//! each correct history keeps, and a client's history that is accepted.

ghost use Rattle.evidence.specs.Clients.{ReceivedIsLatest, LatestStays, CallsForget, WaitsForAnswers, FallsBackOnce, IgnoresOthers, RestsWithoutCall};
ghost use Rattle.evidence.specs.Correct.{ReplicasHaveOwn, ClientsHaveOwn, SealsRequests, AsksItsCall, ReplicasAreSafe, ClientsAreSafe};
ghost use Rattle.evidence.specs.ExamplesOfClients.{FirstReadIsAccepted};
ghost use Rattle.evidence.specs.Stopping.{ReplicasMayStop, ClientsMayStop};

/// A reply that is received is its sender's latest of its mode, whatever was received before, until the sender's next
/// of that mode. A call begins with none.
pub fn latest_replies_count()
    ensures authentic { ReceivedIsLatest }
    ensures stays { LatestStays }
    ensures call { CallsForget }
{}

/// A correct client that goes on gives nothing at a reply that completes nothing, if a replica has not answered
/// read-only or the call's request went ordered before, at a frame that is no reply to its call, and while it has
/// no call.
pub fn clients_wait()
    ensures answers { WaitsForAnswers }
    ensures once { FallsBackOnce }
    ensures others { IgnoresOthers }
    ensures calls { RestsWithoutCall }
{}

/// Each entry of a correct party's history is its own. A correct client sends only requests of its open call, read-only
/// ones for reads alone, with the MACs of their bodies. Each correct history is safe.
pub fn correct_histories_are_safe()
    ensures replicas_have_own { ReplicasHaveOwn }
    ensures clients_have_own { ClientsHaveOwn }
    ensures macs { SealsRequests }
    ensures requests { AsksItsCall }
    ensures replicas { ReplicasAreSafe }
    ensures clients { ClientsAreSafe }
{}

/// A correct replica or client may stop: after any history it may take an input and give no output.
pub fn parties_may_stop()
    ensures replicas { ReplicasMayStop }
    ensures clients { ClientsMayStop }
{}

/// A client that accepts its first read at the third of three read-only replies alike is a correct one.
pub fn a_first_read_is_accepted()
    ensures read { FirstReadIsAccepted }
{}
