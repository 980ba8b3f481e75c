//! The configuration.

ghost use Rattle.std.specs.Prelude.{◌≡◌, ◌==◌, ◌&&◌, ◌≤◌, nat_le, length, [], IfOk, IsOk};
ghost use Rattle.std.specs.List.{list_any};
ghost use Rattle.events.specs.Checking.{are_valid, each_once};
ghost use Rattle.events.specs.ConfigView.{MakesConfig, MakesValid};
ghost use Rattle.protocol.specs.System.Configuration.{IsConfiguration, members, replicas};
ghost use Rattle.protocol.specs.System.Configuration.{is_correct_client, is_correct_replica};
ghost use Rattle.quorum.specs.Quorum.{member};

use std::marker::Model;
use terms::{FIRST_CLIENT, MAX_CLIENTS};
use thiserror::Error;

/// Numbers that make no valid configuration.
#[derive(Clone, Copy, Debug, PartialEq, Eq, Error)]
#[error("the configuration is out of range")]
pub struct BadConfig;

/// How many replicas may be faulty, which parties are, and the values that all parties share (Castro and Liskov, TOCS
/// 2002, on the system model). It is valid: 1 to 3 faults, 1 to 256 clients, a checkpoint every 1 to 16 batches, at
/// most as many faulty replicas as faults, and no party is named twice or does not exist.
#[derive(Drop)]
pub struct Config {
    faults: u8,
    clients: u16,
    seed: [u8; 32],
    period: u8,
    faulty_replicas: Vec<u16>,
    faulty_clients: Vec<u16>,
}

impl Model for Config {
    ghost use Rattle.protocol.specs.System.Configuration.{Configuration, IsConfiguration};
    ghost use Rattle.events.specs.ConfigView.{config_data};

    ghost Value = { Configuration };

    ghost view = { config_data };

    ghost invariant = { λ c. IsConfiguration (config_data c) };
}

impl Config {
    /// The configuration of these numbers.
    ///
    /// # Errors
    ///
    /// [`BadConfig`] exactly if it would not be valid.
    pub fn new(
        faults: u8,
        clients: u16,
        seed: [u8; 32],
        period: u8,
        faulty_replicas: Vec<u16>,
        faulty_clients: Vec<u16>,
    ) -> Result<Config, BadConfig>
        ensures made { MakesConfig faults clients seed period faulty_replicas faulty_clients result }
        ensures only { MakesValid faults clients seed period faulty_replicas faulty_clients result }
    {
        if !is_valid(
            faults,
            clients,
            period,
            faulty_replicas.as_slice(),
            faulty_clients.as_slice(),
        ) {
            return Err(BadConfig);
        }
        note_seed(&seed);
        Ok(Config {
            faults,
            clients,
            seed,
            period,
            faulty_replicas,
            faulty_clients,
        })
    }

    /// How many replicas may be faulty, 1 to 3.
    pub fn faults(&self) -> u8
        ensures value { result ≡ self.now.faults }
        ensures valid { IsConfiguration self.now }
    {
        self.faults
    }

    /// How many replicas may be faulty, by the name of its key in the text of a configuration.
    pub fn f(&self) -> u8
        ensures value { result ≡ self.now.faults }
        ensures valid { IsConfiguration self.now }
    {
        self.faults()
    }

    /// How many replicas there are, 4 to 10.
    pub fn replicas(&self) -> u8
        ensures value { result ≡ replicas self.now }
    {
        3 * self.faults + 1
    }

    /// How many clients there are, 1 to 256.
    pub fn clients(&self) -> u16
        ensures value { result ≡ self.now.clients }
        ensures valid { IsConfiguration self.now }
    {
        self.clients
    }

    /// The seed of all keys.
    pub fn seed(&self) -> &[u8; 32]
        ensures value { result.now ≡ self.now.seed }
    {
        &self.seed
    }

    /// The number of batches from one checkpoint to the next, 1 to 16.
    pub fn period(&self) -> u8
        ensures value { result ≡ self.now.period }
        ensures valid { IsConfiguration self.now }
    {
        self.period
    }

    /// The number of batches from one checkpoint to the next, by the name of its key in the text of a configuration.
    pub fn checkpoint(&self) -> u8
        ensures value { result ≡ self.now.period }
        ensures valid { IsConfiguration self.now }
    {
        self.period()
    }

    /// The numbers of the replicas that are named as faulty, in the order in which they were named.
    pub fn faulty_replicas(&self) -> &[u16]
        ensures value { result.now ≡ self.now.faulty_replicas }
        ensures valid { IsConfiguration self.now }
    {
        &self.faulty_replicas
    }

    /// The numbers of the clients that are named as faulty, from 0 on, in the order in which they were named.
    pub fn faulty_clients(&self) -> &[u16]
        ensures value { result.now ≡ self.now.faulty_clients }
        ensures valid { IsConfiguration self.now }
    {
        &self.faulty_clients
    }

    /// Whether the number is that of a replica that is not named as faulty.
    pub fn is_correct_replica(&self, party: u16) -> bool
        ensures value { result ≡ is_correct_replica self.now party }
    {
        party < 3 * u16::from(self.faults) + 1 && !has(self.faulty_replicas.as_slice(), party)
    }

    /// Whether the number is that of a client that is not named as faulty.
    pub fn is_correct_client(&self, party: u16) -> bool
        ensures value { result ≡ is_correct_client self.now party }
    {
        party >= FIRST_CLIENT
            && party < FIRST_CLIENT + self.clients
            && !has(self.faulty_clients.as_slice(), party - FIRST_CLIENT)
    }
}

// A seed has 32 bytes.
fn note_seed(seed: &[u8; 32])
    ensures { length seed.now ≡ 32 }
{
    let _len = seed.len();
}

// Whether these, with any seed, make a configuration.
fn is_valid(
    faults: u8,
    clients: u16,
    period: u8,
    faulty_replicas: &[u16],
    faulty_clients: &[u16],
) -> bool
    ensures { result ≡ are_valid faults clients period faulty_replicas.now faulty_clients.now }
{
    is_within(u16::from(faults), 3)
        && is_within(clients, MAX_CLIENTS as u16)
        && is_within(u16::from(period), 16)
        && faulty_replicas.len() <= usize::from(faults)
        && names_each_once(faulty_replicas, 3 * u16::from(faults) + 1)
        && names_each_once(faulty_clients, clients)
}

fn is_within(number: u16, most: u16) -> bool
    ensures { result ≡ (nat_le 1 number && nat_le number most) }
{
    number >= 1 && number <= most
}

// Whether the numbers are below the bound and differ. It reads at most so many numbers of the list as the bound.
fn names_each_once(list: &[u16], bound: u16) -> bool
    ensures { result ≡ each_once bound list.now }
{
    let [first, rest @ ..] = list else {
        return true;
    };
    *first < bound && !has(rest, *first) && names_each_once(rest, bound)
}

fn has(list: &[u16], number: u16) -> bool
    ensures { result ≡ member list.now number }
{
    is_any(list, number)
}

fn is_any(list: &[u16], number: u16) -> bool
    ensures { result ≡ list_any (λ x. x == number) list.now }
{
    list.iter().any(|x| *x == number)
}
