//! The text of a configuration, which is TOML.
//!
//! # What is proved
//!
//! `read_config` is safe and returns, on any bytes. Its result is the configuration that the text says
//! (`SaysSettings`): each value stands under its key in the text's table, or has its default if the key is missing; no
//! other key stands there, and all values are valid. A refused text says no configuration (`JudgesSettings`). That
//! memory suffices is tested (`text_tests`).
#![tactic(auto)]

mod fault;
mod key;
mod place;
mod reading;
mod settings;

pub use fault::{ConfigFault, ShownKey};
pub use key::Key;
pub use reading::{MAX_CONFIG, read_config};
pub use settings::Settings;
