//! Tests of messages and their frames (`wire`): worked rows of their bytes, limits, and memory refused.
#![tactic(auto)]

#[cfg(test)]
mod batches;
#[cfg(test)]
mod decoding;
#[cfg(test)]
mod encoding;
#[cfg(test)]
mod frames;
#[cfg(test)]
mod limits;
#[cfg(test)]
mod longest;
