//! Evidence that the definitions of the crate `protocol` are right: laws that show what they accept and refuse, and
//! what the premises of its laws leave open. Nothing of the headline stands on these laws.
//!
//! # What is proved
//!
//! - They accept small histories in data. The first operation of a client at four replicas, with the bytes of all its
//!   frames, is a run, unforged and fed by its schedule. Replicas and clients are right that answer a read or a fetch,
//!   transfer a state, install one, join view changes, begin a view, enter one, or accept a read ([`accepted`],
//!   [`certified`], [`clients`]). A client may be started again at any moment ([`lives`]).
//! - They refuse over a hundred wrong histories, lists and traces ([`refused`] and the six modules beside it).
//! - A new view is selected exactly if it meets the rules ([`selected`]).
//! - Further laws say what certificates and schedules hold, what a flush delivers next, and that the premises of the
//!   protocol's laws can be met ([`certified`], [`fed`], [`premises`]).
//! - Sealed and signed frames are authentic to their receivers ([`sealed_frames_are_authentic`],
//!   [`signed_frames_are_authentic`]).
//!
//! They are laws of definitions: that replicas and clients make runs is promised by the crates that make them.
#![tactic(auto)]

pub mod accepted;
pub mod certified;
pub mod clients;
pub mod fed;
pub mod lives;
pub mod premises;
pub mod refused;
pub mod refused_changes;
pub mod refused_items;
pub mod refused_kept;
pub mod refused_marks;
pub mod refused_runs;
pub mod refused_steps;
pub mod selected;

ghost use Rattle.evidence.specs.FirstOperation.{SealedFramesAreAuthentic};
ghost use Rattle.evidence.specs.RefusedSteps.{SignedFramesAreAuthentic};

/// If a party of the configuration seals a frame for others that it exchanges frames with, it is authentic to each of
/// them.
pub fn sealed_frames_are_authentic()
    ensures authentic { SealedFramesAreAuthentic }
{}

/// If a replica signs a frame with one of its leaves, it is authentic to each other party.
pub fn signed_frames_are_authentic()
    ensures authentic { SignedFramesAreAuthentic }
{}
