//! Signatures by one-time keys under a tree of hashes: 64 signatures for each public key.
//!
//! A seed gives 64 one-time keys (Lamport, Constructing digital signatures from a one way function, SRI 1979), whose
//! digests are the leaves of a tree (Merkle, A certified digital signature, CRYPTO 1989). Its root is the public key.
//! The hash is SHA-256 (FIPS 180-4); the derivation of the secrets, the sizes and the layout are this project's own.
//! Four secrets, and four of their hashes, are computed at once (`hash_lanes`).
//!
//! # What is proved
//!
//! Each signature that a `Signer` makes verifies, it uses no leaf twice, and `verify` is exactly its definition.
//! `receiving` says that the frames authentic to a party are those of others that open and, if they have to be signed,
//! have their sender's signature. A view change or new view is authentic to all others or to none. `authenticate` goes
//! from the bytes to the body in one call, or gives the first refusal that applies; refused bytes take no memory.
//! `is_authentic_for` says whether the bytes are authentic to a party, and decodes nothing. `authenticate_request`
//! finds a request in its bytes. No proof says that nobody else can sign.
#![tactic(auto)]

mod authentic_frame;
mod authentic_request;
mod authentication_fault;
mod dealt;
mod from_bytes;
mod hashing;
mod laws;
mod public_keys;
mod secrets;
mod signature;
mod signer;
mod tree;

pub use authentic_frame::AuthenticFrame;
pub use authentic_request::{AuthenticRequest, authenticate_request};
pub use authentication_fault::AuthenticationFault;
pub use from_bytes::{authenticate, is_authentic_for};
pub use laws::{publics_are_derived, receiving, verifying_is_decided};
pub use public_keys::PublicKeys;
pub use signature::{SIGNATURE_LEN, Signature, verify, verify_bytes};
pub use signer::{SignFault, Signer};
pub use tree::{KeyTree, LEAVES};
