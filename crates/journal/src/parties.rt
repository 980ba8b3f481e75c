//! Parties by their numbers.

ghost use Rattle.std.specs.Prelude.{◌≡◌};
ghost use Rattle.terms.specs.Parties.{party_number};

use terms::{ClientId, FIRST_CLIENT, Party, ReplicaId};

/// The party of this number.
pub(crate) fn party(number: u16) -> Party
    ensures { party_number result ≡ number }
{
    if number < FIRST_CLIENT {
        Party::Replica(ReplicaId(number as u8))
    } else {
        let number = number - FIRST_CLIENT;
        Party::Client(ClientId { number })
    }
}
