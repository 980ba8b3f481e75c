//! The command `client`: from a party's file, a script and records the results of a client, and records.
//!
//! # What is proved
//!
//! [`begin_client`] refuses the keys of a replica, and a life that has no timestamp left. For the keys of a client it
//! gives the client before its first call, whose life begins above the given timestamp (`BeginsAs`). For such a client
//! [`serve_client`] writes what `client_process` promises of the script and of the records that the readers have. It
//! does so in each configuration that gives the party these keys, whoever is faulty there (`ConversesAs`). By
//! [`above_at`] a life begins above 2^20 timestamps for each millisecond since 1970. [`AskedLines`] has the bytes of
//! the lines that it asks for.
//!
//! Tests show what opens the files, that nothing is opened or written for keys that are refused, and that standard
//! input and standard output are the script and the results. That the clock never goes back between two lives is asked
//! of the machine.
#![tactic(auto)]

mod above;
mod asking;
mod commands;
mod fault;
mod serving;

pub use above::above_at;
pub use asking::AskedLines;
pub use commands::{ClientRequest, run_client};
pub use fault::{ClientFault, end_client};
pub use serving::{LAST_TIMESTAMP, begin_client, serve_client};
