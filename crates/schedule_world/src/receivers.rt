//! The receivers of frames.

ghost use Rattle.std.specs.Prelude.{◌≡◌, ◌↔◌, ◌≤◌, nat_lt, length, map, IfOk, IsTrue};
ghost use Rattle.std.specs.List.{list_all};
ghost use Rattle.terms.specs.Parties.{party_number};
ghost use Rattle.wire_format.specs.Lists.{ascends};
ghost use Rattle.protocol.specs.System.Configuration.{is_correct, is_replica};
ghost use Rattle.protocol.specs.System.Schedule.{is_party, AreReceivers};
ghost use Rattle.schedule_world.specs.Receiving.{AreCorrectOf};

use events::Config;
use std::alloc::Global;
use terms::{FIRST_CLIENT, NoMemory, Party};
use wire::MAX_RECEIVERS;

/// Whether the configuration has the party.
pub fn is_party(config: &Config, party: Party) -> bool
    ensures { result ≡ is_party config.now (party_number party) }
{
    let number = party.number();
    number < u16::from(config.replicas())
        || number >= FIRST_CLIENT && number < FIRST_CLIENT + config.clients()
}

/// Whether the party is a replica of the configuration.
pub fn is_replica(config: &Config, party: Party) -> bool
    ensures { result ≡ is_replica config.now (party_number party) }
{
    party.number() < u16::from(config.replicas())
}

/// Whether the configuration has the party and doesn't name it as faulty.
pub fn is_correct(config: &Config, party: Party) -> bool
    ensures { result ≡ is_correct config.now (party_number party) }
{
    config.is_correct_replica(party.number()) || config.is_correct_client(party.number())
}

/// Whether a faulty party may make a frame for these: 1 to 10 parties, ascending.
pub(crate) fn may_receive(config: &Config, receivers: &[Party]) -> bool
    ensures value { IsTrue result ↔ AreReceivers config.now (map party_number receivers.now) }
    ensures few { IsTrue result → length receivers.now ≤ 10 }
{
    if receivers.is_empty() || receivers.len() > MAX_RECEIVERS {
        return false;
    }
    are_parties(config, receivers) && ascend(receivers)
}

fn are_parties(config: &Config, parties: &[Party]) -> bool
    ensures { result ≡ list_all (λ party. is_party config.now (party_number party)) parties.now }
{
    parties.iter().all(|party| is_party(config, *party))
}

fn ascend(parties: &[Party]) -> bool
    ensures { result ≡ ascends nat_lt (map party_number parties.now) }
{
    let [first, rest @ ..] = parties else {
        return true;
    };
    let [next, ..] = rest else {
        return true;
    };
    first.number() < next.number() && ascend(rest)
}

/// The correct ones of these parties.
pub(crate) fn correct_of(
    alloc: Global,
    config: &Config,
    parties: &[Party],
) -> Result<Vec<Party>, NoMemory>
    ensures { IfOk result (AreCorrectOf config.now (map party_number parties.now)) }
{
    let mut correct = Vec::new(alloc);
    correct.extend_from_slice(parties)?;
    keep_correct(config, &mut correct);
    Ok(correct)
}

/// Leaves the correct ones of these parties.
pub(crate) fn keep_correct(config: &Config, parties: &mut Vec<Party>)
    ensures { AreCorrectOf config.now (map party_number parties.old.items) parties.new }
{
    parties.retain(|party| is_correct(config, *party));
}
