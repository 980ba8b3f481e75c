//! The orderer: the log of the three phases, what the replica keeps for view changes, and the keys with which it
//! authenticates and seals frames.

ghost use Rattle.std.specs.Prelude.{◌≡◌, ◌+◌, ◌*◌, ◌<◌, ◌≤◌, true, Some, IfOk, IfSome, IsNone, slice_get};
ghost use Rattle.wire.specs.Marks.{has_type_of_requests};
ghost use Rattle.wire_format.specs.Spelling.{IsBatch};
ghost use Rattle.signing.specs.AuthenticBody.{authentic};
ghost use Rattle.signing.specs.Publics.{knows};
ghost use Rattle.signing.specs.Requests.{AuthenticatesRequest};
ghost use Rattle.signing.specs.Signatures.{public_key};
ghost use Rattle.frame_endpoint.specs.Endpoint.{AuthenticatesBody};
ghost use Rattle.orderer.specs.Going.{KeepsParty};
ghost use Rattle.orderer.specs.ViewChangeOut.{AreChanges};
ghost use Rattle.orderer.specs.Taking.{IsNewOrderer, TakesBatch, TakesPrepare, TakesCommit};

use authenticator::Ring;
use events::Stop;
use frame_endpoint::Endpoint;
use ordering::{HashedBatch, Log};
use pq_sets::PqSets;
use signing::{AuthenticRequest, PublicKeys, Signer};
use std::alloc::Global;
use std::marker::Model;
use std::sync::Arc;
use terms::{NoMemory, Number, ReplicaId, View};
use view_change::{Received, Sizes};
use wire::{Body, CheckpointEntry, Commit, PrePrepare, Prepare};

/// The part of a replica that orders requests.
#[derive(Drop)]
pub struct Orderer {
    /// It is some kilobytes, with the signer's tree of keys. So it stays in its place when a part moves.
    pub(crate) endpoint: Box<Endpoint>,
    pub(crate) log: Log,
    /// The greatest number assigned in this view, by the new view or by this replica as the primary; 0 before the
    /// first.
    pub(crate) used: Number,
    /// The greatest number that the new view assigned, 0 in the first view.
    pub(crate) assigned: Number,
    /// The greatest view that the replica sent a view change for, 0 before the first.
    pub(crate) target: View,
    /// The frame of the new view with which the view began, if the replica made it.
    pub(crate) new_view: Option<Vec<u8>>,
    /// What the replica logged and prepared, for its own view changes.
    pub(crate) pq_sets: PqSets,
    /// The latest view change of each replica.
    pub(crate) received: Received,
    /// The last checkpoint that the replica sent.
    pub(crate) last_checkpoint: Option<CheckpointEntry>,
}

impl Model for Orderer {
    ghost use Rattle.orderer.specs.State.{OrdererData, IsOrderer};
    ghost use Rattle.orderer.specs.OrdererView.{orderer_data};

    ghost Value = { OrdererData };

    ghost view = { orderer_data };

    ghost invariant = { λ o. IsOrderer (orderer_data o) };
}

impl Orderer {
    /// The orderer of this replica before its first message. The ring has the replica's keys, and the signer is that of
    /// its public key. NoMemory if memory runs out.
    pub fn new(
        alloc: Global,
        me: ReplicaId,
        sizes: Sizes,
        ring: Ring,
        publics: PublicKeys,
        signer: Signer,
    ) -> Result<Orderer, NoMemory>
        requires faults { sizes.faults ≡ ring.faults }
        requires some { 1 ≤ sizes.faults }
        requires known { me.0 < 3 * sizes.faults + 1 }
        requires keys { slice_get publics me.0 ≡ Some (public_key signer.seed) }
        requires unused { signer.used ≡ 0 }
        ensures made { IfOk result (IsNewOrderer (knows ring publics) sizes.period me.0) }
    {
        let received = Received::new(alloc, publics.share()?, sizes)?;
        let span = 2 * u64::from(sizes.period);
        let endpoint = Endpoint::new(me, sizes.faults, ring, publics, signer);
        Ok(Orderer {
            endpoint: Box::new(alloc, endpoint)?,
            log: Log::new(alloc, me, sizes.faults, span)?,
            used: Number(0),
            assigned: Number(0),
            target: View(0),
            new_view: None,
            pq_sets: PqSets::new(alloc),
            received,
            last_checkpoint: None,
        })
    }

    /// The number of batches from one checkpoint to the next.
    pub fn period(&self) -> u8
        ensures { result ≡ self.now.received.sizes.period }
    {
        self.received.sizes().period
    }

    /// Tells a proof that the stored frames spell the stored view changes.
    pub fn note_changes(&self)
        ensures { AreChanges self.now.received.held }
    {
        self.received.note_held();
    }

    /// Authenticates the bytes and returns their body, if they have one.
    pub fn authenticate(&mut self, alloc: Global, bytes: &[u8]) -> Result<Option<Body>, Stop>
        ensures authentic { IfOk result (AuthenticatesBody self.old.endpoint bytes.now) }
        ensures same { self.new ≡ self.old }
    {
        Ok(self.endpoint.authenticate(alloc, bytes)?)
    }

    /// Authenticates bytes with the type of requests and returns the request in them, if they have one.
    pub fn authenticate_request<'b>(&mut self, bytes: &'b [u8]) -> Option<AuthenticRequest<'b>>
        requires { has_type_of_requests bytes.now ≡ true }
        ensures some { IfSome result
            (AuthenticatesRequest self.old.endpoint.membership self.old.endpoint.me bytes.now) }
        ensures none { IsNone result
            → authentic self.old.endpoint.membership self.old.endpoint.me bytes.now ≡ None }
        ensures same { self.new ≡ self.old }
    {
        self.endpoint.authenticate_request(bytes)
    }

    /// Takes the primary's batch for a number, if its place is free and its requests are authentic. Returns whether.
    pub fn take_batch(
        &mut self,
        alloc: Global,
        sender: ReplicaId,
        message: PrePrepare,
    ) -> Result<bool, Stop>
        requires batch { IsBatch 1 message.batch.text.items }
        ensures takes { IfOk result (TakesBatch self.old sender message self.new) }
        ensures party { KeepsParty self.old self.new }
        ensures received { self.new.received ≡ self.old.received }
    {
        if self.log.preprepare_fault(sender, &message).is_some() {
            return Ok(false);
        }
        if !self.endpoint.are_genuine(&message.batch) {
            return Ok(false);
        }
        let PrePrepare { number, batch, .. } = message;
        let batch = Arc::new(alloc, HashedBatch::new(batch))?;
        self.log_batch(number, batch)?;
        Ok(true)
    }

    /// Takes a backup's prepare, if it has no fault. Returns whether.
    pub fn take_prepare(&mut self, sender: ReplicaId, message: &Prepare) -> bool
        ensures takes { TakesPrepare self.old sender message.now self.new result }
    {
        self.log.keeps();
        self.log.on_prepare(sender, message).is_ok()
    }

    /// Takes a replica's commit, if it has no fault. Returns whether.
    pub fn take_commit(&mut self, sender: ReplicaId, message: &Commit) -> bool
        ensures takes { TakesCommit self.old sender message.now self.new result }
    {
        self.log.keeps();
        self.log.on_commit(sender, message).is_ok()
    }
}
