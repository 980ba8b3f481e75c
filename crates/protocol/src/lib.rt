//! The laws of the protocol, over every trace of correct replicas and clients.
//!
//! # What is proved
//!
//! `points_are_linear` is the headline: over every valid configuration and every run in which at most `f` replicas and
//! any clients are faulty, no message of a correct party is forged and no two texts of the run have one digest
//! (`NoCollision` lists them), the answers that correct clients accept, of reads and writes alike, are those of one
//! sequential tuple space. In it each operation acts at most once, an accepted one exactly once, at a position between
//! its invocation and its acceptance. With it stand the laws of agreement over all views (`prepared_agree`,
//! `committed_stays`, `committed_agree`, `executed_agree`, `states_agree`, `roots_agree`), `accepted_at_levels`,
//! `none_runs_twice`, and the same laws for parties of which only safety is known (`safe_histories_are_linear`,
//! `safe_histories_accept_at_levels`). `outgoing_frames_may_be_sent` ties the frames that a replica sends to those that
//! it may send. What bytes spell, and which frames are authentic, the definitions take from the crates `wire` and
//! `signing`.
//!
//! [`taken`] says what a transfer took, entry by entry. The crate `evidence` shows what the definitions accept and
//! refuse; none of these laws stands on it.
//!
//! They are laws over runs: that replicas and clients make runs is promised by the crates that make them.
#![tactic(auto)]

pub mod taken;

ghost use Rattle.protocol.specs.Laws.Histories.{OutgoingMaySend, LeavesSignOnce, PreparedAgree, CommittedStays, CommittedAgree, ExecutedAgree, PagesDetermine, PointsAreOne, BatchesLeaveStates, StatesAreExecuted, StatesAgree, StableAgree, InstalledAgree, StartsAgree, LinearOfSafe, NoneBegins, FirstViewStays};
ghost use Rattle.protocol.specs.Laws.Runs.{PointsAreLinear, NoneRunsTwice, AcceptedAtLevels, LevelsOfSafe, RunsAreLinear, RunsAreOfLives};

/// A replica may send a frame to the right receivers, over frames that it has seen, if it may send the
/// message.
pub fn outgoing_frames_may_be_sent()
    ensures may { OutgoingMaySend }
{}

/// No leaf of a right replica signs two frames, so none of its one-time keys signs two bodies.
pub fn leaves_sign_once()
    ensures once { LeavesSignOnce }
{}

/// Batches that two correct replicas hold prepared in one view for one number have one digest (Castro and Liskov, TOCS
/// 2002, on normal-case operation).
pub fn prepared_agree()
    ensures agree { PreparedAgree }
{}

/// Each later new view has a committed batch's digest for its number, or starts at or above it (Castro and Liskov, TOCS
/// 2002, on view changes).
pub fn committed_stays()
    ensures stays { CommittedStays }
{}

/// Batches that two correct replicas hold committed for one number have one digest, over all views.
pub fn committed_agree()
    ensures agree { CommittedAgree }
{}

/// Batches that two correct replicas execute for one number are one batch.
pub fn executed_agree()
    ensures agree { ExecutedAgree }
{}

/// States are equal if their pages are.
pub fn pages_determine()
    ensures determine { PagesDetermine }
{}

/// A history leaves a replica at one point at most: the pages that its transfer took tell the state that it installs.
pub fn points_are_one()
    ensures one { PointsAreOne }
{}

/// Fewer than 2^48 batches leave a well-formed state.
pub fn batches_leave_states()
    ensures leave { BatchesLeaveStates }
{}

/// Each state that a correct replica ever has, executed, kept or installed, is that of the executed batches up to its
/// number, so states of one number are one state (Castro and Liskov, TOCS 2002, on normal-case operation).
pub fn states_agree()
    ensures executed { StatesAreExecuted }
    ensures agree { StatesAgree }
{}

/// A root is that of the executed batches if a quorum of checkpoints has it, a replica installed it, or a new view
/// starts with it (Castro and Liskov, TOCS 2002, on garbage collection and view changes).
pub fn roots_agree()
    ensures stable { StableAgree }
    ensures installed { InstalledAgree }
    ensures starts { StartsAgree }
{}

/// Over every run of a valid configuration, in which clients may be started again, if no message of a correct party is
/// forged and the texts of the trace do not collide, the points are legal, cover the trace and are placed in it. So the
/// answers that correct clients accept, of reads and writes alike, are those of one sequential tuple space. Each
/// operation acts at most once there, an accepted one exactly once, at a position between its invocation and its
/// acceptance (Herlihy and Wing, TOPLAS 1990, section 2). One that a client left open when it was started again acts
/// once or never.
pub fn points_are_linear()
    ensures points { PointsAreLinear }
    ensures linear { RunsAreLinear }
{}

/// A run in which each client has one life, with the timestamps 1, 2, .., is one in which clients may be started again.
/// So all laws of such runs hold of it.
pub fn runs_are_of_lives()
    ensures lives { RunsAreOfLives }
{}

/// The same over a trace whose histories are safe, whether or not the replicas do all that they owe.
pub fn safe_histories_are_linear()
    ensures linear { LinearOfSafe }
{}

/// At an acceptance all but `f` of the correct replicas have reached the replies' number. When a read was invoked, no
/// greater number had been reached by all but `f`.
pub fn accepted_at_levels()
    ensures levels { AcceptedAtLevels }
{}

/// The same over a trace whose histories are safe, whether or not the replicas do all that they owe.
pub fn safe_histories_accept_at_levels()
    ensures levels { LevelsOfSafe }
{}

/// No client and timestamp runs twice over all batches.
pub fn none_runs_twice()
    ensures once { NoneRunsTwice }
{}

/// If no correct replica sends a view change, none takes a new view, and each stays in the first view: of the signers
/// of a new view's view changes one is correct (Castro and Liskov, TOCS 2002, on view changes).
pub fn first_view_stays()
    ensures begins { NoneBegins }
    ensures stays { FirstViewStays }
{}
