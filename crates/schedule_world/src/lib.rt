//! The world of schedules: correct replicas and clients, which receive the inputs of a schedule and nothing else.
//!
//! # What is proved
//!
//! [`run`] returns a trace that the schedule feeds and that is a run (`IsRun`): each correct party's history in it is a
//! correct party's. The report names the correct parties that ran out of memory and stopped. Each other correct party
//! does all that it owes (`OnlyTheseStopped`). With the trace come its acceptances, with their positions, and its
//! points. If no message of a correct party is forged and no two different texts of the run have one digest
//! (`NoCollision` lists them, the pages of the executed states among them), the points are those of one sequential
//! tuple space: they are legal, cover the trace, and stand between invocations and acceptances.
//!
//! `run` refuses a schedule exactly at its first step that is not allowed. The refusal has the report of a run of all
//! steps before it, in whose world that step is not allowed. So if the report names no stopped party, `run` refuses no
//! step as if a party had not sent a frame that it owes: [`first_frame_may_come`] shows this of a call's first frame.
//!
//! # How it is made
//!
//! - `run` plays steps on a `Stage` (`src/stage.rt`): the correct replicas and clients, the trace, and a `Pool` of
//!   frames. Each frame has the correct receivers that didn't get it yet, and shares its bytes with the trace.
//! - Each party has a ring of its own keys, and the public keys; a replica has its own signer. Faulty parties seal and
//!   sign by their own keys too (`src/faulty.rt`).
//! - A step either moves the stage as the definitions' `World` moves (`Takes` in `specs/Moving.antt`, over `StepsLead`
//!   of the protocol's `Schedule.antt`), or may not come (`IsAllowed`).
//! - Beside the stage lie the keys of each faulty party that has made a frame (`FaultyParty`).
//! - `IsStanding` ties the stage to its trace: each correct replica and each correct client fits its part of the trace.
//!   A party that gives outputs hands that on by its own contract (`HistoryStaysRight`). So nothing here looks into a
//!   replica or a client.
//! - `flush` takes frames by number and receivers by party number, from the place where it stopped before. So it is
//!   linear in its deliveries.
#![tactic(auto)]

mod faulty;
mod laws;
mod making;
mod pool;
mod receivers;
mod report;
mod running;
mod stage;

pub use laws::first_frame_may_come;
pub use points::Point;
pub use receivers::{is_correct, is_party, is_replica};
pub use report::{Acceptance, Report};
pub use running::{RunFault, run};
pub use stage::Parties;
