//! Tests of texts that are read and written: operations, answers and tuples (`tuple_text`), schedules
//! (`schedule_text`), the entries of a trace (`trace_text`), configurations (`config_text`), and pictures (`picture`).
#![tactic(auto)]

#[cfg(test)]
mod config;
#[cfg(test)]
mod pictures;
#[cfg(test)]
mod schedule;
#[cfg(test)]
mod traces;
#[cfg(test)]
mod tuples;
