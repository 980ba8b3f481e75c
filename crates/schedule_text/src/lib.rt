//! Steps of a schedule as text, a line each.
//!
//! # What is proved
//!
//! `read_step` gives a step exactly if the line is its text (`IsStep`), nothing exactly if the line is skipped, and
//! otherwise a refusal that holds. Whether a step may come at its place is no matter of its text.
#![tactic(auto)]

mod arguments;
mod fault;
mod lines;
mod step;
mod words;

pub use fault::{Argument, Reason, StepFault};
pub use lines::{MAX_STEP, read_step};
pub use step::Step;
