//! Laws on the lives of a client: what a client that is started again may do, and what it may not.

ghost use Rattle.evidence.specs.Lives.{OneLifeIsOfLives, LivesTakeCalls, LivesAsk, LivesTakeInputs, RunsTakeLives, RunsOfLivesGoOn};
ghost use Rattle.evidence.specs.Lives.{LivesAscend, TimestampsNameCalls, LivesAcceptTheLast, LifeAcceptsItsOwn, LifeBeginsSilent};

/// A client may be started again at any moment, whether it left a call open or not. Then it takes inputs, and calls
/// with any timestamp above all earlier ones. A run stays one. A client with one life, whose timestamps are 1, 2, ..,
/// is one of lives.
pub fn clients_are_started_again()
    ensures one { OneLifeIsOfLives }
    ensures calls { LivesTakeCalls }
    ensures asks { LivesAsk }
    ensures inputs { LivesTakeInputs }
    ensures runs { RunsTakeLives }
    ensures goes_on { RunsOfLivesGoOn }
{}

/// Over all lives of a client timestamps ascend, and none names two operations. A life accepts answers to its own calls
/// alone, and gives nothing before its first: it neither sends a request of an earlier life again nor accepts its
/// answer.
pub fn lives_keep_apart()
    ensures ascend { LivesAscend }
    ensures names { TimestampsNameCalls }
    ensures last { LivesAcceptTheLast }
    ensures own { LifeAcceptsItsOwn }
    ensures silent { LifeBeginsSilent }
{}
