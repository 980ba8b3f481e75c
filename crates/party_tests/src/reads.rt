//! Tests of answering reads beside the order (`read_only`): frames whose bytes come from Python's hmac, an answer to
//! each sort of operation, and calls that memory is refused to.

mod answering;
mod frames;
mod receiving;
mod refusals;
