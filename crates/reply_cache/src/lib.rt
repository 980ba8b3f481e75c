//! The last reply to each client. By it a replica runs each request at most once, and answers a request that comes
//! again (Castro and Liskov, Practical Byzantine fault tolerance and proactive recovery, TOCS 2002, on the client and
//! on normal-case operation).
//!
//! # What is proved
//!
//! The cache has the last reply to each client, replaced whole. `put` changes nothing if memory runs out, which can
//! happen only for a client above all that have a reply. `page_text` is a client's page by the definition. `from_pages`
//! returns a cache exactly if the texts are one's pages; it runs out of memory only on such texts. Laws:
//! `pages_determine` (equal pages are equal caches), `replies_stay_replies`.
#![tactic(auto)]

mod cache;
mod laws;
mod pages;

pub use cache::{Reply, ReplyCache};
pub use laws::{pages_determine, replies_stay_replies};
