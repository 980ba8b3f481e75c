//! Tests of a replica's executed state (`execution`): a batch that comes twice, requests of no client, the root of the
//! state, worked out outside, and states that are installed from their pages.

mod batches;
mod frames;
mod states;
