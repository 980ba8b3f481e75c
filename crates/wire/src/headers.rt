//! The sender and the proof of a frame, before the frame is read into memory.

use crate::mac_bytes::MacBytes;
use terms::Party;

/// The sender and the proof of a frame, as they stand in its bytes.
#[derive(Drop)]
pub struct Header<'b> {
    pub sender: Party,
    /// Whether the message is a request. Clients send requests, replicas all other messages.
    pub is_request: bool,
    /// The bytes of the body, which MACs and signatures authenticate.
    pub text: &'b [u8],
    pub authenticator: AuthenticatorBytes<'b>,
}

/// The proof of a body: MACs, or the 16,577 bytes of a signature.
#[derive(Drop)]
pub enum AuthenticatorBytes<'b> {
    /// For 1 to 10 receivers, ascending by their numbers.
    Macs(MacBytes<'b>),
    Signature(&'b [u8]),
}
