//! The command `schedule`: the steps of a schedule in a world of its own, and the report of the run, its trace or its
//! picture. Both commands that take a configuration read it here.
//!
//! # What is proved
//!
//! [`schedule`] holds over any reader and writer whose bytes are known. At `Ok` all lines said steps, which led to a
//! trace, and its text was written (`WritesRun`). At a refused line nothing was written, and the line is none of a
//! step, or has one that isn't allowed: in the world to which the steps before it led, the reason holds that is given
//! (`TellsFault`). [`read_settings`] gives the settings that the text says, and a refused text says none. The
//! complaints and statuses follow from the faults ([`end_schedule`]).
//!
//! Out of memory may come at any time. How a picture is drawn is proved in part (`picture`).
#![tactic(auto)]

mod allowed;
mod fault;
mod running;
mod settings;
mod writing;

pub use allowed::NotAllowed;
pub use fault::{ScheduleFault, StepReason, end_schedule};
pub use running::schedule;
pub use settings::read_settings;
