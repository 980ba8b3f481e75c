//! Why a step may not come at its place.

ghost use Rattle.std.specs.Prelude.{◌≡◌, ◌<◌, true, false, nat_lt, map, MatchOption};
ghost use Rattle.std.specs.List.{list_all};
ghost use Rattle.terms.specs.Parties.{party_number};
ghost use Rattle.wire_format.specs.Lists.{ascends};
ghost use Rattle.protocol.specs.System.Configuration.{is_correct, is_replica};
ghost use Rattle.protocol.specs.System.Schedule.{World, AreReceivers, is_party};
ghost use Rattle.schedule_text.specs.StepView.{step_of};
ghost use Rattle.schedule_command.specs.Allowed.{IsReason, IsRefused, SaysWhy};
ghost use Rattle.schedule_command.specs.Misfits.{FitsParties, IsStranger, MisfitsCorrect, MisfitsFaulty, MisfitsOrder, MisfitsReceivers, MisfitsSigner};

use events::Config;
use schedule_text::Step;
use schedule_world::{is_correct, is_party, is_replica};
use signing::LEAVES;
use terms::Party;
use thiserror::Error;
use trace_text::Name;
use wire::MAX_RECEIVERS;

/// Why a step may not come at its place.
#[derive(Clone, Copy, Debug, Error)]
pub enum NotAllowed {
    /// The configuration has no such party.
    #[error("there is no {0}")]
    NoParty(Name),
    #[error("{0} is faulty, and this is a step of correct parties")]
    Faulty(Name),
    #[error("{0} is correct, and this is a step of faulty parties")]
    Correct(Name),
    #[error("{0} is no replica, and only replicas sign")]
    NoReplica(Name),
    #[error("{0} has a call open")]
    Busy(Name),
    /// The frame is made later, or never. So many are made before.
    #[error("frame {frame} is not made yet: there are {made}, the first of them 0")]
    NoFrame { frame: u64, made: u64 },
    #[error("there is no leaf {0}: they are 0 to 63")]
    NoLeaf(u64),
    #[error("PARTIES names {0} parties, and a frame is for 1 to 10")]
    Receivers(usize),
    /// The second party stands right behind the first.
    #[error("PARTIES have to ascend, replicas before clients: {1} stands behind {0}")]
    NotAscending(Name, Name),
}

/// Why the step may not come where so many frames are made. There it may not.
pub(crate) fn why(config: &Config, step: &Step, made: u64) -> NotAllowed
    requires { IsRefused config.now (step_of step.now) }
    ensures { SaysWhy config.now (step_of step.now) result }
{
    if let Some(why) = misfit(config, step) {
        return why;
    }
    match step {
        Step::Invoke { client, op } => {
            // The calls show that the configuration and the operation are valid.
            let _faults = config.faults();
            op.note_valid();
            NotAllowed::Busy(Name(Party::Client(*client)))
        }
        Step::Deliver { frame, .. } => NotAllowed::NoFrame {
            frame: *frame,
            made,
        },
        Step::Feed { .. }
        | Step::Seal { .. }
        | Step::Sign { .. }
        | Step::Tick { .. }
        | Step::Flush => unreachable!(),
    }
}

// Why the step may come nowhere, if that is so.
fn misfit(config: &Config, step: &Step) -> Option<NotAllowed>
    ensures { MatchOption result (FitsParties config.now (step_of step.now))
        (λ why. (w : World) → IsReason config.now w (step_of step.now) why) }
{
    match step {
        Step::Invoke { client, .. } => not_correct(config, Party::Client(*client)),
        Step::Deliver { party, .. } => not_correct(config, *party),
        Step::Feed { party, .. } => not_correct(config, *party),
        Step::Tick { party } => not_correct(config, *party),
        Step::Seal {
            sender,
            receivers,
            ..
        } => match not_faulty(config, *sender) {
            Some(why) => Some(why),
            None => not_receivers(config, receivers.as_slice()),
        },
        Step::Sign {
            signer,
            leaf,
            receivers,
            ..
        } => match no_signer(config, *signer, *leaf) {
            Some(why) => Some(why),
            None => not_receivers(config, receivers.as_slice()),
        },
        Step::Flush => None,
    }
}

fn not_correct(config: &Config, party: Party) -> Option<NotAllowed>
    ensures { MatchOption result (is_correct config.now (party_number party) ≡ true)
        (MisfitsCorrect config.now (party_number party)) }
{
    if is_correct(config, party) {
        None
    } else if is_party(config, party) {
        Some(NotAllowed::Faulty(Name(party)))
    } else {
        Some(NotAllowed::NoParty(Name(party)))
    }
}

fn not_faulty(config: &Config, party: Party) -> Option<NotAllowed>
    ensures { MatchOption result
        ((is_party config.now (party_number party) ≡ true) × (is_correct config.now (party_number party) ≡ false))
        (MisfitsFaulty config.now (party_number party)) }
{
    if !is_party(config, party) {
        Some(NotAllowed::NoParty(Name(party)))
    } else if is_correct(config, party) {
        Some(NotAllowed::Correct(Name(party)))
    } else {
        None
    }
}

fn no_signer(config: &Config, signer: Party, leaf: u64) -> Option<NotAllowed>
    ensures { MatchOption result
        ((is_replica config.now (party_number signer) ≡ true)
        × (is_correct config.now (party_number signer) ≡ false) × (leaf < 64))
        (MisfitsSigner config.now (party_number signer) leaf) }
{
    if let Some(why) = not_faulty(config, signer) {
        Some(why)
    } else if !is_replica(config, signer) {
        Some(NotAllowed::NoReplica(Name(signer)))
    } else if leaf >= u64::from(LEAVES) {
        Some(NotAllowed::NoLeaf(leaf))
    } else {
        None
    }
}

// Why no frame is for these parties, if that is so: one is for 1 to 10 parties, ascending.
fn not_receivers(config: &Config, receivers: &[Party]) -> Option<NotAllowed>
    ensures { MatchOption result (AreReceivers config.now (map party_number receivers.now))
        (MisfitsReceivers config.now (map party_number receivers.now)) }
{
    if receivers.is_empty() || receivers.len() > MAX_RECEIVERS {
        return Some(NotAllowed::Receivers(receivers.len()));
    }
    match stranger(config, receivers) {
        Some(party) => Some(NotAllowed::NoParty(Name(party))),
        None => not_ascending(receivers),
    }
}

// The first of these that the configuration doesn't have, if there is one.
fn stranger(config: &Config, parties: &[Party]) -> Option<Party>
    ensures { MatchOption result (list_all (λ p. is_party config.now (party_number p)) parties.now ≡ true)
        (λ p. IsStranger config.now (map party_number parties.now) (party_number p)) }
{
    for party in parties {
        if !is_party(config, *party) {
            return Some(*party);
        }
    }
    None
}

fn not_ascending(parties: &[Party]) -> Option<NotAllowed>
    ensures { MatchOption result (ascends nat_lt (map party_number parties.now) ≡ true)
        (MisfitsOrder (map party_number parties.now)) }
{
    let [first, rest @ ..] = parties else {
        return None;
    };
    let [next, ..] = rest else {
        return None;
    };
    if first.number() < next.number() {
        not_ascending(rest)
    } else {
        Some(NotAllowed::NotAscending(Name(*first), Name(*next)))
    }
}
