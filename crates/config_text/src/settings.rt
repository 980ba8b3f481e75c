//! The settings of a run.

ghost use Rattle.std.specs.Prelude.{◌≤◌};

use events::Config;

/// The settings of a run, as a text says them.
#[derive(Drop)]
pub struct Settings {
    pub config: Config,
    /// How many entries the journal of a running cluster takes, 1 to 65,536.
    pub journal: u32,
    ghost some: { 1 ≤ journal },
    ghost few: { journal ≤ 65536 },
}
