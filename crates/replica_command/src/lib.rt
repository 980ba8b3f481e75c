//! The command `replica`: from a party's file and records the records of its replica.
//!
//! # What is proved
//!
//! [`serve_replica`] refuses the keys of a client, and writes nothing then. For the keys of a replica it writes what
//! `replica_process` promises of the bytes that the reader has. It does so in each configuration that gives the party
//! these keys, whoever is faulty there, and with `2 f` as the number of others that have to be linked (`ServesAs`).
//! [`serve_file`] does so by the keys that a file's text says, as `keys_file` reads them (`EndsByFile`).
//!
//! What opens the file, and that standard input and standard output are the reader and the writer, is tested.
#![tactic(auto)]

mod commands;
mod fault;
mod serving;

pub use commands::run_replica;
pub use fault::{ReplicaFault, end_replica};
pub use serving::{serve_file, serve_replica};
