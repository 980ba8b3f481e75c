//! Tests of the journal of a running cluster (`journal`): the events that it takes and refuses, shares that lag, the
//! ordering beside reads, and memory refused.
#![tactic(auto)]

#[cfg(test)]
mod appends;
#[cfg(test)]
mod carried;
#[cfg(test)]
mod clusters;
#[cfg(test)]
mod ordering;
