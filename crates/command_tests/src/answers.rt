//! The program's answers to words that ask for nothing that has to run: help, the version, and what is wrong.
//!
//! Made by tools/manual of what the program answers. Where it isn't built, ./btspace takes its answers from here, and
//! tools/manual makes the completions and the man page of them. The words of each command stand in a file of their own.

mod of_client;
mod of_keys;
mod of_local;
mod of_program;
mod of_replica;
mod of_run;
mod of_schedule;
mod of_show;

/// Words as in a terminal, and the answer below them. In brackets stands what the answer names. A mistake begins with
/// `error: `, and goes to standard error.
pub static TABLES: [&str; 8] = [
    of_program::ANSWERS,
    of_local::ANSWERS,
    of_run::ANSWERS,
    of_schedule::ANSWERS,
    of_keys::ANSWERS,
    of_replica::ANSWERS,
    of_client::ANSWERS,
    of_show::ANSWERS,
];
