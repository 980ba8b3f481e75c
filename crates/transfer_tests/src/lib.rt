//! Tests of transfers of states (`state_transfer`): which parts are asked for, and which are refused; newer states, own
//! pages that change meanwhile, pages that are given back, and memory refused.
#![tactic(auto)]

#[cfg(test)]
mod memory;
#[cfg(test)]
mod moves;
#[cfg(test)]
mod refusals;
#[cfg(test)]
mod trees;
#[cfg(test)]
mod walks;
