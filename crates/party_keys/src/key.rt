//! The keys in the file of a party.

ghost use Rattle.std.specs.Prelude.{◌≡◌};
ghost use Rattle.party_keys.specs.Names.{key_name};

use std::fmt;

const CHECKPOINT: &str = "checkpoint";

const CLIENTS: &str = "clients";

const FAULTS: &str = "f";

const FROM: &str = "from";

const PARTY: &str = "party";

const PUBLIC: &str = "public";

const SIGNING_SEED: &str = "signing_seed";

const TO: &str = "to";

/// The names of all keys.
pub(crate) const KEYS: [&str; 8] = [
    CHECKPOINT,
    CLIENTS,
    FAULTS,
    FROM,
    PARTY,
    PUBLIC,
    SIGNING_SEED,
    TO,
];

/// A key in the file of a party, which is shown by its name.
#[derive(Clone, Copy, Debug, PartialEq, Eq)]
pub enum Key {
    Checkpoint,
    Clients,
    Faults,
    From,
    Party,
    Public,
    SigningSeed,
    To,
}

impl Key {
    /// The name of the key in the text.
    pub fn name(self) -> &'static str
        ensures { result.now ≡ key_name self }
    {
        match self {
            Key::Checkpoint => CHECKPOINT,
            Key::Clients => CLIENTS,
            Key::Faults => FAULTS,
            Key::From => FROM,
            Key::Party => PARTY,
            Key::Public => PUBLIC,
            Key::SigningSeed => SIGNING_SEED,
            Key::To => TO,
        }
    }
}

impl fmt::Display for Key {
    fn fmt<W: fmt::Write>(&self, f: &mut fmt::Formatter<W>) -> fmt::Result {
        f.write_str(self.name())
    }
}
