//! Reads beside the order: a replica answers a read-only request at once, from its executed state (Castro and Liskov,
//! Practical Byzantine fault tolerance and proactive recovery, TOCS 2002, on read-only operations).
//!
//! # What is proved
//!
//! `asks_read` looks at two bytes. If it says false, no party receives a read-only request in the bytes. From all
//! other bytes `authenticate_read` takes the request that the definitions say, in their place: nothing is decoded, and
//! only the keys and requests that the ring keeps take memory. `answer` gives the reply to a read from the tuples of a
//! [`Shelf`]. It refuses exactly the operations that may change a space, and memory runs out only for others.
//!
//! The borrow checker ensures that no part of an operation outlives its read in the arena. `tools/refuses_to_compile`
//! tries a text that keeps one.
//!
//! # How it is made
//!
//! - `authenticate_read` tests one MAC. A reply needs the client, the timestamp and the bytes of the operation, and
//!   `ReadRequest` lends these out of the frame.
//! - `answer` copies only the matches into ordinary memory, into the reply.
#![tactic(auto)]

mod answering;
mod read_fault;
mod receiving;

pub use answering::{Shelf, answer};
pub use read_fault::ReadFault;
pub use receiving::{ReadRequest, asks_read, authenticate_read};
