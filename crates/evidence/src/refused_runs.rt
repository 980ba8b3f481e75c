//! Laws that show what the definitions of clients, runs, schedules and certificates refuse.

ghost use Rattle.evidence.specs.RefusedRuns.{AcceptsAlike, FallsBack, AsksAtTicks, AsksAll, OutputsFollow, FeedsEachCall, FeedsEachTick, FlushDeliversAll, FlushDeliversSent, LogsNumbers, NoBeginWhileInactive, KeepsProposed, NoRequestByReplica, InstallsItsRoot};
ghost use Rattle.protocol.specs.Laws.Schedules.{FeedsEachStep, AllowsSent};

/// A correct client that goes on accepts, and gives nothing else, if `2f + 1` replicas' latest replies are alike. Once
/// all replicas have answered a read, and too few alike, it gives its open call's ordered request and nothing else. It
/// does the same at each tick. It seals each request for all replicas.
pub fn correct_clients_go_on()
    ensures accepts { AcceptsAlike }
    ensures reads { FallsBack }
    ensures ticks { AsksAtTicks }
    ensures receivers { AsksAll }
{}

/// In a run no output directly follows another party's entry.
pub fn outputs_follow_inputs()
    ensures follow { OutputsFollow }
{}

/// A schedule feeds the input of each of its steps, and no other calls and ticks. It may deliver each frame that was
/// sent to a correct party, and by a flush it delivers each frame to each of its correct receivers.
pub fn schedules_feed_all()
    ensures inputs { FeedsEachStep }
    ensures calls { FeedsEachCall }
    ensures ticks { FeedsEachTick }
    ensures deliveries { AllowsSent }
    ensures flushes { FlushDeliversAll }
    ensures sent { FlushDeliversSent }
{}

/// A right replica logs only numbers below 2^48, sends a new view again only while active in it, leaves no pre-prepared
/// batch out of a view change, sends no request, and installs a state of the number and root that it says.
pub fn right_replicas_keep_rules()
    ensures numbers { LogsNumbers }
    ensures new_views { NoBeginWhileInactive }
    ensures view_changes { KeepsProposed }
    ensures requests { NoRequestByReplica }
    ensures installs { InstallsItsRoot }
{}
