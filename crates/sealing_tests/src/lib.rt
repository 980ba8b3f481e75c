//! Tests of the proofs of a message's sender: codes, rows of keys and sealed frames (`authenticator`), and signatures
//! (`signing`).
#![tactic(auto)]

#[cfg(test)]
mod codes;
#[cfg(test)]
mod frames;
#[cfg(test)]
mod macs;
#[cfg(test)]
mod rows;
#[cfg(test)]
mod signatures;
