//! The lines of a schedule, read one after another with memory for one line.
//!
//! # What is proved
//!
//! [`Schedule::read`] gives the steps that the lines of the reader's bytes say (`LinesSay`), with the numbers of their
//! lines, and the first line that is none of a step. It holds over any reader whose bytes are known.
#![tactic(auto)]

mod lines;
mod reading;

pub use reading::{LineRefusal, RefusedLine, Schedule};
