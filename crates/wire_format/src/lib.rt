//! What the messages of replicas and clients are, how frames spell them, and the writing of frames.
//!
//! # What is proved
//!
//! `encode`, `begin_frame`, `put_authenticator` and `encode_frame` write the spelling of what they are given, each
//! block of memory in its final length. A frame that would be too long is known before memory is asked for.
//! `Batch::of` is the text of request frames, out of which the grammar reads these frames again.
//!
//! The grammar stands in the definitions: `Spelling` says which bytes spell a frame, `Reading` reads them. Laws:
//! `one_spelling` (no frame begins another), `reads_what_is_spelled`, `carries_frames` (a message carries whole
//! frames, and none is left out). `wire` judges and decodes bytes by the same grammar.
#![tactic(auto)]

mod batches;
mod bodies;
mod digests;
mod fault;
mod frames;
mod laws;
mod messages;
mod put;
mod put_lists;
mod sealing;
mod sizes;

pub use bodies::encode;
pub use digests::note_digest;
pub use fault::{NoFrame, WireFault};
pub use frames::{
    Authenticator, Frame, MAX_FRAME, MAX_RECEIVERS, MAX_VIEW_CHANGE, ReceiverMac, SIGNATURE_KEYS,
    SIGNATURE_LEN,
};
pub use laws::{carries_frames, one_spelling, reads_what_is_spelled};
pub use messages::{
    Batch, BatchEntry, Body, Checkpoint, CheckpointEntry, Commit, Fetch, Message, Meta, NewView,
    Page, PrePrepare, Prepare, Reply, Request, ViewChange,
};
pub use sealing::{begin_frame, encode_frame, put_authenticator};
