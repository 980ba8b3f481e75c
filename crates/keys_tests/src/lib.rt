//! Tests of the files of keys (`party_keys`), and of the command that writes them (`keys_command`).
#![tactic(auto)]

#[cfg(test)]
mod files;
#[cfg(test)]
mod folders;
#[cfg(test)]
mod texts;
