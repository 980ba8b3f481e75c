//! The law that joins processes: events of correct parties, one after another, are a run.
//!
//! Each party is a process with a history of its own, and no process knows the others'. Each event has a moment: that
//! at which its step has ended, before a byte of its outputs is written. By these moments the events of all processes
//! stand in one order, and their entries are a trace. Frames are sent in it before they come, and a call acts between
//! the reading of its line and the writing of its result. The moments are outside of the proofs: the laws speak of any
//! order of whole events.
//!
//! # What is proved
//!
//! The trace has each party's history as its own events tell it (`histories_are_kept`). If each of these is a correct
//! party's, the trace is a run (`interleavings_are_runs`). A client's process may be started again: then its events are
//! those of its lives, and the trace is a run of lives (`interleaved_lives_are_runs`). So the headline holds of it: its
//! points are those of one sequential tuple space, if nothing is forged and no two of its texts have one digest
//! (`interleavings_are_linear`).
#![tactic(auto)]

ghost use Rattle.party_runs.specs.Interleavings.{HistoriesAreKept, InterleavingsAreRuns};
ghost use Rattle.party_runs.specs.Interleavings.{InterleavedLivesAreRuns, InterleavingsAreLinear};

/// Of events in any order, the entries of one party are those of its own events, in their order.
pub fn histories_are_kept()
    ensures kept { HistoriesAreKept }
{}

/// Events of correct parties, in any order, are a run if each party's own are a correct party's history.
pub fn interleavings_are_runs()
    ensures runs { InterleavingsAreRuns }
{}

/// They are a run in which clients may be started again, if each client's own are the events of its lives, one after
/// another: each life is a correct client's by itself, and its timestamps are above all earlier ones.
pub fn interleaved_lives_are_runs()
    ensures runs { InterleavedLivesAreRuns }
{}

/// So they are linear, as each run is (`protocol::points_are_linear`), under the same premises.
pub fn interleavings_are_linear()
    ensures linear { InterleavingsAreLinear }
{}
