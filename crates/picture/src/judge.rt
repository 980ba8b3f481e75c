//! Which frames are authentic.

ghost use Rattle.std.specs.Prelude.{◌≡◌, is_some};
ghost use Rattle.terms.specs.Parties.{party_number};
ghost use Rattle.signing.specs.AuthenticBody.{authentic};
ghost use Rattle.signing.specs.Publics.{knows};

use authenticator::Ring;
use events::Config;
use signing::{PublicKeys, is_authentic_for};
use std::alloc::Global;
use terms::{NoMemory, Party};

/// Tells whether frames are authentic, by all keys that the seed of a configuration gives.
#[derive(Drop)]
pub(crate) struct Judge {
    ring: Ring,
    publics: PublicKeys,
}

impl Judge {
    pub(crate) fn new(alloc: Global, config: &Config) -> Result<Judge, NoMemory> {
        Ok(Judge {
            ring: Ring::new(alloc, config.seed(), config.faults(), config.clients()),
            publics: PublicKeys::new(alloc, config.seed(), config.faults())?,
        })
    }

    /// Whether the bytes are a frame that is authentic to the party. No other bytes change a correct party.
    pub(crate) fn is_authentic(&mut self, bytes: &[u8], party: Party) -> bool
        ensures { result ≡ is_some (authentic (knows self.old.ring self.old.publics)
            (party_number party) bytes.now) }
    {
        is_authentic_for(&mut self.ring, &self.publics, bytes, party)
    }
}
