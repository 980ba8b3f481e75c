//! The keys of a configuration.

ghost use Rattle.std.specs.Prelude.{◌≡◌};
ghost use Rattle.config_text.specs.Keys.{key_name};

use std::fmt;

const FAULTS: &str = "f";

const CLIENTS: &str = "clients";

const SEED: &str = "seed";

const CHECKPOINT: &str = "checkpoint";

const FAULTY_REPLICAS: &str = "faulty_replicas";

const FAULTY_CLIENTS: &str = "faulty_clients";

const JOURNAL: &str = "journal";

/// The names of all keys.
pub(crate) const KEYS: [&str; 7] = [
    FAULTS,
    CLIENTS,
    SEED,
    CHECKPOINT,
    FAULTY_REPLICAS,
    FAULTY_CLIENTS,
    JOURNAL,
];

/// A key of a configuration, which is shown by its name.
#[derive(Clone, Copy, Debug, PartialEq, Eq)]
pub enum Key {
    Faults,
    Clients,
    Seed,
    Checkpoint,
    FaultyReplicas,
    FaultyClients,
    Journal,
}

impl Key {
    /// The name of the key in the text.
    pub fn name(self) -> &'static str
        ensures { result.now ≡ key_name self }
    {
        match self {
            Key::Faults => FAULTS,
            Key::Clients => CLIENTS,
            Key::Seed => SEED,
            Key::Checkpoint => CHECKPOINT,
            Key::FaultyReplicas => FAULTY_REPLICAS,
            Key::FaultyClients => FAULTY_CLIENTS,
            Key::Journal => JOURNAL,
        }
    }
}

impl fmt::Display for Key {
    fn fmt<W: fmt::Write>(&self, f: &mut fmt::Formatter<W>) -> fmt::Result {
        f.write_str(self.name())
    }
}
