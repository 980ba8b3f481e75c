//! The replies to a call, of one mode.

ghost use Rattle.std.specs.Prelude.{◌≡◌, ◌≤◌, [], OnOk, Some, is_some};
ghost use Rattle.client_cert.specs.State.{AddsBallot, count_alike, count_held, count_like, held, is_like};

use events::Stop;
use indexmap::IndexMap;
use std::alloc::Global;
use std::marker::Model;
use terms::Number;

/// A replica's reply, in the form in which replies are compared: the number of its state, and the bytes of its
/// answer.
#[derive(Drop)]
pub(crate) struct Ballot {
    number: Number,
    text: Vec<u8>,
}

impl Model for Ballot {
    ghost use Rattle.client_cert.specs.State as state;

    ghost Value = { state.Ballot };

    ghost coded = { state.ballot_code };

    ghost view = { λ b. record { number = b.number.0; text = b.text.items } };
}

impl Ballot {
    pub(crate) fn new(number: Number, text: Vec<u8>) -> Ballot
        ensures { result ≡ record { number = number.0; text = text.items } }
    {
        Ballot { number, text }
    }

    // Whether both have the same number and answer.
    fn is_like(&self, other: &Ballot) -> bool
        ensures { result ≡ is_like self.now (Some other.now) }
    {
        other.number.0 == self.number.0 && other.text.as_slice() == self.text.as_slice()
    }
}

/// The latest reply of each replica, in order of arrival.
#[derive(Drop)]
pub(crate) struct Ballots {
    cast: IndexMap<u16, Ballot>,
}

impl Model for Ballots {
    ghost use Rattle.client_cert.specs.State as state;

    ghost Value = { state.Ballots };

    ghost coded = { state.ballots_code };

    ghost view = { λ b. b.cast.entries };
}

impl Ballots {
    pub(crate) fn new(alloc: Global) -> Ballots
        ensures { result ≡ [] }
    {
        Ballots {
            cast: IndexMap::new(alloc),
        }
    }

    /// Keeps a reply, in place of that replica's earlier one.
    pub(crate) fn note(&mut self, sender: u16, ballot: Ballot) -> Result<(), Stop>
        ensures added { OnOk result (AddsBallot self.old sender ballot self.new) }
    {
        match self.cast.insert(sender, ballot) {
            Ok(_) => Ok(()),
            Err(_) => Err(Stop::NoMemory),
        }
    }

    /// How many of the first `replicas` replicas have a reply here.
    pub(crate) fn count(&self, replicas: u16) -> u16
        ensures { result ≡ count_held self.now replicas }
    {
        let mut count = 0;
        for replica in 0..replicas {
            if self.has(replica) {
                count += 1;
            }
        }
        count
    }

    fn has(&self, replica: u16) -> bool
        ensures { result ≡ is_some (held self.now replica) }
    {
        self.cast.get(&replica).is_some()
    }

    /// How many of the first `replicas` replicas gave the same reply as the sender.
    pub(crate) fn count_alike(&self, replicas: u16, sender: u16) -> u16
        ensures { result ≡ count_alike self.now replicas sender }
    {
        match self.cast.get(&sender) {
            Some(ballot) => self.count_like(replicas, ballot),
            None => 0,
        }
    }

    // How many of the first `replicas` replicas gave this reply.
    fn count_like(&self, replicas: u16, ballot: &Ballot) -> u16
        ensures { result ≡ count_like self.now replicas ballot.now }
    {
        let mut count = 0;
        for replica in 0..replicas {
            if self.has_like(replica, ballot) {
                count += 1;
            }
        }
        count
    }

    fn has_like(&self, replica: u16, ballot: &Ballot) -> bool
        ensures { result ≡ is_like ballot.now (held self.now replica) }
    {
        match self.cast.get(&replica) {
            Some(other) => ballot.is_like(other),
            None => false,
        }
    }
}
