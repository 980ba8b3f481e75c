//! The messages that replicas and clients send each other, out of the bytes of their frames. The messages, their
//! spelling and the writing of frames are `wire_format`'s, and can be had from here.
//!
//! # What is proved
//!
//! `judge` tells in place, without memory, whether the bytes spell a frame, are too long or are none, and gives the
//! frame's `Header`, whose MACs stay in the bytes (`MacBytes`). `decode` gives the frame itself, exactly if the bytes
//! spell one, and memory runs out only then. `decode_judged` is its second half, for bytes that were judged, and
//! `decode_judged_body` gives the body alone. `body_bytes` is the slice that a MAC or a signature authenticates.
//!
//! `request_in` gives the fields of a request out of the bytes of its frame. `requests` gives the frames of a batch's
//! text, `split_batch` those of a text that was judged before. This crate only carries signatures.
#![tactic(auto)]

mod authenticators;
mod batches;
mod carried;
mod changes;
mod decoding;
mod fields;
mod headers;
mod judging;
mod mac_bytes;
mod oversize;
mod reading;
mod request_bytes;

pub use batches::{is_ordered_request, requests, split_batch};
pub use carried::MAX_REQUESTS;
pub use decoding::{decode, decode_judged, decode_judged_body};
pub use headers::{AuthenticatorBytes, Header};
pub use judging::judge;
pub use mac_bytes::MacBytes;
pub use reading::body_bytes;
pub use request_bytes::{RequestBytes, has_type_of_requests, mode_of_byte, request_in};
pub use wire_format::{
    Authenticator, Batch, BatchEntry, Body, Checkpoint, CheckpointEntry, Commit, Fetch, Frame,
    MAX_FRAME, MAX_RECEIVERS, MAX_VIEW_CHANGE, Message, Meta, NewView, NoFrame, Page, PrePrepare,
    Prepare, ReceiverMac, Reply, Request, SIGNATURE_LEN, ViewChange, WireFault, begin_frame,
    carries_frames, encode, encode_frame, one_spelling, put_authenticator, reads_what_is_spelled,
};
