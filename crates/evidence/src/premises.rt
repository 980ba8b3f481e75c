//! Laws that show what the premises of the laws leave open.

ghost use Rattle.evidence.specs.Premises.{WidestIsValid, NarrowestIsValid, ReplicasAreCorrect, ClientsAreCorrect, CorrectAreBoth, EachIsPrimary, PrimariesReturn, RunsHaveReplicas, RunsHaveClients, RunsGoOn, ReplicasGoOn, RunsTakeCalls, OthersAreUnforged, FramesMayBeGot, FaultyReceiveAnything, TextsAreFew};
ghost use Rattle.evidence.specs.Listed.{TextsAreListed, ListsAreShort};
ghost use Rattle.evidence.specs.Fetched.{FetchFramesExist, FetchingIsRun, FetchedAreTaken, FetchedAddThemselves, FetchedAreInstalled, PagesAddThemselves};

/// Ten replicas of which any three are faulty, with 256 clients of which any are faulty, the longest period and any
/// seed of 32 bytes are a valid configuration; so are four replicas and one client, none of them faulty, with the
/// shortest.
pub fn configurations_are_valid()
    ensures widest { WidestIsValid }
    ensures narrowest { NarrowestIsValid }
{}

/// The correct parties are the replicas and the clients that are in neither list of faulty ones.
pub fn correct_parties_are_the_others()
    ensures replicas { ReplicasAreCorrect }
    ensures clients { ClientsAreCorrect }
    ensures both { CorrectAreBoth }
{}

/// Each replica is the primary in turn, from replica 0 in view 0 on.
pub fn primaries_take_turns()
    ensures each { EachIsPrimary }
    ensures again { PrimariesReturn }
{}

/// In a run each correct replica's history is a correct replica's, and each correct client's a correct client's, whole:
/// safe, and with all that is owed.
pub fn runs_have_whole_histories()
    ensures replicas { RunsHaveReplicas }
    ensures clients { RunsHaveClients }
{}

/// A run goes on with whatever a correct party gets, with a tick at any time, and with any call of a correct client
/// that has none open; and so does a safe replica's history, with what it gets and with ticks.
pub fn runs_go_on()
    ensures inputs { RunsGoOn }
    ensures replicas { ReplicasGoOn }
    ensures calls { RunsTakeCalls }
{}

/// Only bytes that a party gets can make a trace forged. It stays unforged if nobody takes a message in them as a
/// correct sender's, unless that sender sent it, alone or in other frames. It stays unforged whatever a faulty party
/// gets.
pub fn unforged_traces_go_on()
    ensures others { OthersAreUnforged }
    ensures got { FramesMayBeGot }
    ensures faulty { FaultyReceiveAnything }
{}

/// As long as nothing is executed or installed and no party receives a page, the texts whose digests must differ are
/// the null batch, the opening state's pages, the digests under its root, and the batches and digests of frames that
/// were got or sent.
pub fn texts_are_few()
    ensures few { TextsAreFew }
{}

/// In any trace at all, whatever is executed, installed and got, the texts whose digests must differ stand in a list of
/// at most 1,057 for each entry and 1,058 more.
pub fn texts_are_listed()
    ensures listed { TextsAreListed }
    ensures short { ListsAreShort }
{}

/// A replica that is behind fetches any number of pages below 1,024, each other than its own, and takes each of them.
/// If they are the 513 pages of a state, it installs that state. It does all that it owes, and such frames exist. Each
/// page adds its own text alone to those whose digests must differ: a run in which it takes 257 of them has at most
/// 1,348 texts, and one in which it installs 513 has at most 1,622. A page that a party receives after any other trace
/// adds its own text alone, too.
pub fn fetched_pages_add_themselves()
    ensures frames { FetchFramesExist }
    ensures run { FetchingIsRun }
    ensures taken { FetchedAreTaken }
    ensures fetched { FetchedAddThemselves }
    ensures installed { FetchedAreInstalled }
    ensures pages { PagesAddThemselves }
{}
