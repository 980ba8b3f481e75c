//! A client as a process: it reads the lines of a script and writes a line for each, and talks to the replicas by
//! records.
//!
//! A line of an operation is a call, and its result line is the answer that the client accepted. A refused line has a
//! line too: `! ` and the words by which `local` complains of it. So the process serves as a co-process of any
//! language. A blank line and a comment call nothing and have no line, as in `local`: a script has the same lines there
//! and here.
//!
//! It reads lines only while no call is open, and records only while one is. So one thread serves, and what it writes
//! is a function of both texts that it reads. Frames that come while no call is open stay unread. Nothing is held back
//! while it waits: each event's records are written and flushed before the next record is read, and each result before
//! the next line.
//!
//! While a call is open a timer runs, as a record: half a second, and then twice as long each time, up to eight
//! seconds. At its end the client asks again. Timers are numbered through the process's life, so that one of an earlier
//! call is known as such.
//!
//! # What is proved
//!
//! [`converse`] holds over all readers and writers whose bytes are known, and each configuration that gives the client
//! its keys. For the lines and a front of the records the client has a history that is one life of a correct client,
//! which has not stopped (`IsPromptLife`). A life has the timestamps above a number, which the client knows. Each call
//! is the operation of the next line, each frame that came is an event, and so is the end of the running timer
//! (`Serves`). The records written are those of its frames, for exactly the parties for whom they are, and of its
//! timers. The result lines are the answers that were accepted to these calls, in order, and the complaints about
//! refused lines. At a fault this holds up to some input; if writing failed, of fronts of the texts.
//!
//! The loop is generic over the client ([`Caller`]), and `client_cert`'s is one.
//!
//! # What it keeps
//!
//! Two buffers of inputs, the longest record, a line, and the outputs of one event: a constant, beside the client.
#![tactic(auto)]

mod caller;
mod client;
mod fault;
mod process;
mod session;
mod timer;

pub use caller::Caller;
pub use fault::ConverseFault;
pub use session::converse;
pub use timer::{FIRST, LONGEST, Timer};
