//! Tests of the part of a replica that receives and sends frames (`frame_endpoint`), among four replicas: the bytes of
//! each message that it sends, their receivers, whether frames are received that are whole, changed or for others, and
//! each fault.

mod endpoints;
mod receiving;
mod requests;
mod sending;
