//! Tests of a replica's message log (`ordering`): a number from its pre-prepare until the log drops it after its
//! checkpoint, or until a later view; each refusal, and memory refused.

mod phases;
mod refusals;
