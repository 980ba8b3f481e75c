//! The command `run`: a script on a running cluster.
//!
//! # What is proved
//!
//! What [`run`] writes is a result line for each operation, in their order: the answer that the operation's client
//! accepted to this call, in a trace of the cluster. It does so whether replicas have a drill or not. The trace is
//! linearizable unless it has a forged frame, or two different texts of it have one digest. Without drills it has no
//! forged frame. At a fault `run` writes nothing, unless the writer failed.
//!
//! [`drills_of`] gives exactly the drills that the words ask for, and [`drilled`] the settings in which exactly their
//! replicas are faulty: no more than may be, each a replica, and no two the same. Otherwise it gives a true reason.
//!
//! Each fault has its complaint and its status: a faulty party and drills that no cluster has are refused as the
//! configuration, and every other fault is told as a run that stopped.
//!
//! # What is not
//!
//! No contract says what a [`Summary`] tells, nor what a [`Display`] shows on a terminal while the run lasts: these are
//! safe, and `command_tests` looks at what they tell. A [`Forecast`] is an estimate, for a run in which all replicas
//! keep up.
#![tactic(auto)]

mod display;
mod drills;
mod forecast;
mod running;
mod summary;

pub use display::Display;
pub use drills::{DrillFault, drilled, drills_of};
pub use forecast::Forecast;
pub use running::{RunFault, end_run, most_operations, run};
pub use summary::Summary;
