//! Who takes part.

ghost use Rattle.std.specs.Prelude.{◌≤◌};

/// The number of client 0 in frames. Replicas have the numbers below it.
pub const FIRST_CLIENT: u16 = 256;

/// A configuration has at most so many clients.
pub const MAX_CLIENTS: usize = 256;

/// A replica. A configuration has up to 10 of them; frames may name more.
#[derive(Clone, Copy, PartialEq, Eq, Drop)]
pub struct ReplicaId(pub u8);

/// A client, by a number from 0 to 65,279. A configuration has clients up to 255; frames may name more.
#[derive(Clone, Copy, Drop)]
pub struct ClientId {
    pub number: u16,
    ghost in_range: { number ≤ 65279 },
}

/// Who sends or receives: replica `r` stands as the number `r` in frames, client `c` as `256 + c`.
#[derive(Clone, Copy, Drop)]
pub enum Party {
    Replica(ReplicaId),
    Client(ClientId),
}

impl Party {
    ghost use Rattle.std.specs.Prelude.{◌≡◌};
    ghost use Rattle.terms.specs.Parties.{party_number};

    /// The number of this party in frames.
    pub fn number(self) -> u16
        ensures { result ≡ party_number self }
    {
        match self {
            Party::Replica(replica) => u16::from(replica.0),
            Party::Client(client) => FIRST_CLIENT + client.number,
        }
    }
}
