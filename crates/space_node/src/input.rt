//! Inputs of events.

ghost use Rattle.std.specs.Prelude.{◌≡◌};
ghost use Rattle.terms.specs.Parties.{party_number};
ghost use Rattle.space_node.specs.PartyStates.{input_of};

use events::{Entry, EntryKind, Outputs, SharedBytes};
use terms::Party;

/// An input that a party takes from its inbox.
#[derive(Drop)]
pub(crate) enum Input {
    /// The bytes of a frame, and the position in the journal at which it was sent.
    Got(SharedBytes, u64),
    /// Time went by.
    Tick,
}

impl Input {
    /// The entry that begins the party's event, and the position at which its frame was sent.
    pub(crate) fn into_entry(self, party: Party) -> (Entry, Option<u64>)
        ensures { result.0 ≡ input_of (party_number party) self }
    {
        match self {
            Input::Got(bytes, from) => (Entry::new(EntryKind::Got(party, bytes)), Some(from)),
            Input::Tick => (Entry::new(EntryKind::Tick(party)), None),
        }
    }
}

/// The outputs of an event that is in the journal; `first` is the position of its first entry.
#[derive(Drop)]
pub(crate) struct Outgoing {
    pub(crate) outputs: Outputs,
    pub(crate) first: u64,
}
