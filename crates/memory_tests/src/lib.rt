//! Calls under each size of memory that is left, in small steps.
//!
//! A test takes all memory that the system gives to its process, and gives it back crumb by crumb. After each crumb it
//! makes one and the same call, which has to give its result or to say that memory ran out. `tools/growths` refuses
//! each growth in turn instead, and leaves these tests out.
#![tactic(auto)]

#[cfg(test)]
mod clients;
#[cfg(test)]
mod clusters;
#[cfg(test)]
mod journals;
#[cfg(test)]
mod left;
#[cfg(test)]
mod pages;
#[cfg(test)]
mod reads;
#[cfg(test)]
mod runs;
#[cfg(test)]
mod spaces;
