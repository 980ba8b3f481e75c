//! A replica.

ghost use Rattle.std.specs.Prelude.{◌≡◌, ◌↔◌, ◌+◌, ◌*◌, ◌<◌, ◌≤◌, true, false, [], Some, Err, IfOk, IfSome, OnErr, is_none, slice_get};
ghost use Rattle.events.specs.declared.output.Stop.TheVariants as Stop;
ghost use Rattle.protocol.specs.System.Configuration.{Configuration, members};
ghost use Rattle.signing.specs.Publics.{knows};
ghost use Rattle.signing.specs.Signatures.{public_key};
ghost use Rattle.terms.specs.declared.parties.TheConstants.{MAX_CLIENTS};
ghost use Rattle.replica.specs.State.{IsReplicaData, has_stopped};
ghost use Rattle.replica.specs.Fits.{EventLeads, Fits, SendsAsMeant, me_of};
ghost use Rattle.replica.specs.Standing.{TellsStanding};

use crate::both_parts::BothParts;
use crate::member::Member;
use crate::parted::{Desk, Orderer};
use authenticator::Ring;
use desk::Desk as DeskState;
use events::{Outputs, Stop};
use orderer::Orderer as OrdererState;
use patience::Standing;
use signing::{PublicKeys, Signer};
use std::alloc::Global;
use std::marker::Model;
use terms::{NoMemory, ReplicaId};
use view_change::Sizes;

/// The numbers of a system that each of its parties knows.
#[derive(Clone, Copy, Drop)]
pub struct Numbers {
    /// How many of `3 * faults + 1` replicas may be faulty, 1 to 3.
    pub faults: u8,
    /// How many clients there are, at most 256.
    pub clients: u16,
    /// How many batches go from one checkpoint to the next, 1 to 16.
    pub period: u8,
}

/// The input of a replica.
#[derive(Drop)]
pub enum Event<'a> {
    /// These bytes arrived.
    Got(&'a [u8]),
    /// A timeout.
    Timeout,
}

/// A replica: an orderer on its own desk, which stay joined from one event to the next.
#[derive(Drop)]
pub struct Replica {
    member: Member,
    holds: Option<BothParts>,
}

impl Model for Replica {
    ghost use Rattle.replica.specs.State.{ReplicaData};
    ghost use Rattle.replica.specs.ReplicaView.{replica_data, IsOwn};
    ghost use Rattle.std.specs.Coded.{codes};
    ghost use Rattle.execution.specs.Executed.{executed_code};

    ghost Value = { ReplicaData };

    ghost coded = { Prim.hlevel (codes, executed_code) };

    ghost view = { replica_data };

    ghost invariant = { IsOwn };
}

impl Replica {
    /// The replica `me` before its first event. It has a ring of its own keys, its own signer, which has signed nothing
    /// yet, and the public keys. It fits the empty history of each configuration that gives it these keys and this
    /// period, whoever is faulty there: no replica knows that.
    ///
    /// # Errors
    ///
    /// NoMemory if memory runs out.
    #[tactic(auto, using(crate::proofs::PartsLead::one_new))]
    pub fn new(
        alloc: Global,
        numbers: Numbers,
        me: ReplicaId,
        mut ring: Ring,
        signer: Signer,
        publics: PublicKeys,
    ) -> Result<Replica, NoMemory>
        requires some { 1 ≤ numbers.faults }
        requires few { numbers.faults ≤ 3 }
        requires clients { numbers.clients ≤ MAX_CLIENTS }
        requires period { 1 ≤ numbers.period }
        requires short { numbers.period ≤ 16 }
        requires known { me.0 < 3 * numbers.faults + 1 }
        requires ring_faults { ring.faults ≡ numbers.faults }
        requires ring_clients { ring.clients ≡ numbers.clients }
        requires keys { slice_get publics me.0 ≡ Some (public_key signer.seed) }
        requires unused { signer.used ≡ 0 }
        ensures fits { IfOk result (λ r. (c : Configuration) → members c me.0 ≡ knows ring publics
            → c.period ≡ numbers.period → Fits c r []) }
        ensures number { IfOk result (λ r. me_of r ≡ me.0) }
        ensures runs { IfOk result (λ r. has_stopped r ≡ false) }
    {
        let Numbers {
            faults,
            clients,
            period,
        } = numbers;
        let member = Member::new(me, faults, clients, &mut ring);
        let desk = DeskState::new(alloc, me, ring.share()?, publics.share()?, clients, period)?;
        let sizes = Sizes { faults, period };
        let orderer = OrdererState::new(alloc, me, sizes, ring, publics, signer)?;
        orderer.note_changes();
        Ok(Replica {
            member,
            holds: Some(BothParts { orderer, desk }),
        })
    }

    /// Whether the replica has stopped.
    pub fn is_stopped(&self) -> bool
        ensures value { result ≡ has_stopped self.now }
    {
        self.holds.is_none()
    }

    /// What the replica waits for between two events, or `None` if it has stopped.
    pub fn standing(&self) -> Option<Standing>
        ensures runs { is_none result ≡ has_stopped self.now }
        ensures stands { IfSome result (TellsStanding self.now) }
    {
        let Some(both_parts) = &self.holds else {
            return None;
        };
        both_parts.are_one();
        Some(both_parts.standing())
    }

    /// What the replica gives for its next input.
    ///
    /// # Errors
    ///
    /// NoMemory if memory runs out, with which the replica stops, and Stopped exactly if it had stopped before. Nothing
    /// is given then.
    pub fn step(&mut self, alloc: Global, event: Event<'_>) -> Result<Outputs, Stop>
        ensures leads { IfOk result (λ outs. EventLeads self.old event.entry outs.items self.new) }
        ensures meant { IfOk result (λ outs. SendsAsMeant self.old outs.items) }
        ensures stops { OnErr result (EventLeads self.old event.entry [] self.new) }
        ensures runs { IfOk result (λ _. has_stopped self.new ≡ false) }
        ensures stopped { OnErr result (has_stopped self.new ≡ true) }
        ensures before { (result ≡ Err Stop.Stopped) ↔ (has_stopped self.old ≡ true) }
        ensures number { me_of self.new ≡ me_of self.old }
    {
        let Some(both_parts) = &mut self.holds else {
            return Err(Stop::Stopped);
        };
        let Ok(outputs) = both_parts.step(alloc, event) else {
            self.holds = None;
            return Err(Stop::NoMemory);
        };
        Ok(outputs)
    }

    /// Its two parts, which may lie behind two locks.
    pub fn split(self) -> (Orderer, Desk)
        ensures orderer { result.0 ≡ self.orderer }
        ensures desk { result.1 ≡ self.desk }
    {
        let Replica { member, holds } = self;
        match holds {
            Some(BothParts { orderer, desk }) => (
                Orderer::new(member, orderer),
                Desk::new(member, desk),
            ),
            None => (Orderer::stopped(member), Desk::stopped(member)),
        }
    }
}
