//! What several crates of tests need, each once: frames with MACs and what stands in them, written by docs/formats.md
//! without what reads them or makes them; the seeds of worked keys; operations from their bytes; and the answers of
//! helpers. No crate but those of tests uses it, and nothing is promised but that each function is safe.
#![tactic(auto)]

mod answers;
mod buffers;
mod frames;
mod macs;
mod messages;
mod operations;
mod seeds;

pub use answers::{Verdict, all_hold, both};
pub use buffers::Buffer;
pub use frames::{batch_text, joined, piece, seal, sealed};
pub use messages::{
    ORDERED, READ_ONLY, Reply, client_party, put_reply, put_request, reply_body, request_body,
};
pub use operations::{ABSENT, DONE, READ, TAKE, read_op};
pub use seeds::{FRAME_SEED, seed};
