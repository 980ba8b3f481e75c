//! The world between steps.

ghost use Rattle.std.specs.Prelude.{◌≡◌, ◌↔◌, ◌<◌, true, [], ◌∷◌, length, map, filter, All};
ghost use Rattle.std.specs.Prelude.{IfOk, MatchOption, OnOk};
ghost use Rattle.terms.specs.Parties.{party_number, client_party};
ghost use Rattle.tuple_codec.specs.OperationView.{operation_of};
ghost use Rattle.events.specs.EntryView.{entry_of_kind};
ghost use Rattle.protocol.specs.System.Configuration.{is_correct, is_correct_client, replicas};
ghost use Rattle.protocol.specs.System.Trace.Entry.{Got, Sent, Tick};
ghost use Rattle.protocol.specs.System.Schedule.Step.{flush};
ghost use Rattle.schedule_world.specs.Opening.{AreNewReplicas, AreNewStageClients, IsNewReplica, IsNewStageClient, own_ring};
ghost use Rattle.schedule_world.specs.Moving.{StageAddsEntry, AddsAccepted, AddsAllIfMeant, AddsIfMeant, AddsSent, AreOf};
ghost use Rattle.schedule_world.specs.Moving.{IsOutputOf, IsPlainEntry, KeepsParties};
ghost use Rattle.schedule_world.specs.Moving.{entries_by, entry_by};
ghost use Rattle.schedule_world.specs.Moving.{CallComes, InputComes, FrameIsDelivered, FrameIsMadeFor, LeadsBy, WaitsFirst};
ghost use Rattle.schedule_world.specs.Moving.{StepsInvocation, KeepsRecords, StepsClient, StepsReplica};
ghost use Rattle.schedule_world.specs.Pooled.{HasBytes, IsServed};
ghost use Rattle.schedule_world.specs.Stages.{StageIsAfterSteps, IsOpen, PartiesArePlaced, IsStanding};
ghost use Rattle.schedule_world.specs.Stopped.{AddsParties, is_stopped_client, is_stopped_replica};
ghost use Rattle.schedule_world.specs.Stopped.{stopped_clients, stopped_parties, stopped_replicas};

use crate::pool::Pool;
use crate::receivers::{correct_of, keep_correct};
use crate::report::Acceptance;
use authenticator::{Ring, signing_seed};
use client_cert::{Client, Event as ClientEvent};
use events::{Config, Entry, EntryKind, Output, Outputs, SharedBytes};
use replica::{Event, Numbers, Replica};
use signing::{PublicKeys, Signer};
use std::alloc::Global;
use std::sync::Arc;
use terms::{ClientId, NoMemory, Party, ReplicaId, Timestamp};
use tuple_codec::{Answer, Op};

/// A client, with the timestamp of its last call.
#[derive(Drop)]
pub(crate) struct StageClient {
    client: Client,
    calls: u64,
}

/// The parties, the frames that were made, and the trace. Faulty parties are there too, and receive nothing.
#[derive(Drop)]
pub(crate) struct Stage {
    pub(crate) replicas: Vec<Replica>,
    pub(crate) stage_clients: Vec<StageClient>,
    pub(crate) pool: Pool,
    pub(crate) trace: Vec<Entry>,
    pub(crate) accepted: Vec<Acceptance>,
}

/// The parties of a run that ended, and the frames that they sent. To give back all that they hold takes a tenth of a
/// long run's time; a process that ends may [`std::mem::forget`] it.
#[derive(Drop)]
pub struct Parties {
    pub(crate) replicas: Vec<Replica>,
    pub(crate) stage_clients: Vec<StageClient>,
    pub(crate) pool: Pool,
}

impl Stage {
    /// The world before the first step.
    pub(crate) fn new(alloc: Global, config: &Config) -> Result<Stage, NoMemory>
        ensures placed { IfOk result (λ s. PartiesArePlaced config.now s) }
        ensures stands { IfOk result (λ s. StageIsAfterSteps config.now [] [] s) }
    {
        let publics = PublicKeys::new(alloc, config.seed(), config.faults())?;
        Ok(Stage {
            replicas: new_replicas(alloc, config, &publics)?,
            stage_clients: new_stage_clients(alloc, config, &publics)?,
            pool: Pool::new(alloc),
            trace: Vec::new(alloc),
            accepted: Vec::new(alloc),
        })
    }

    /// Whether the client has a call open.
    pub(crate) fn is_open(&self, client: ClientId) -> bool
        requires known { client.number < length self.now.stage_clients.items }
        ensures value { IsOpen self.now client.number result }
    {
        self.stage_clients[usize::from(client.number)]
            .client
            .is_open()
    }

    /// Whether a frame of this number was made.
    pub(crate) fn has_frame(&self, frame: usize) -> bool
        ensures made { (result ≡ true) ↔ (frame < length self.now.pool) }
    {
        self.pool.bytes(frame).is_some()
    }

    /// A correct client without an open call calls an operation.
    pub(crate) fn call(
        &mut self,
        alloc: Global,
        config: &Config,
        client: ClientId,
        op: Op<Global>,
        told: Op<Global>,
    ) -> Result<(), NoMemory>
        requires placed { PartiesArePlaced config.now self.old }
        requires correct { is_correct_client config.now (client_party client.number) ≡ true }
        requires same { operation_of told ≡ operation_of op }
        ensures placed { OnOk result (PartiesArePlaced config.now self.new) }
        ensures comes { OnOk result (CallComes config.now client.number (operation_of op) self.old self.new) }
    {
        let (timestamp, outputs) = self.invoke(alloc, client, op)?;
        let told = Arc::new(alloc, told)?;
        self.add(config, EntryKind::Invoke(client, timestamp, told))?;
        self.add_outputs(alloc, config, Party::Client(client), outputs)?;
        Ok(())
    }

    /// Delivers a frame that was made to a correct party.
    pub(crate) fn deliver(
        &mut self,
        alloc: Global,
        config: &Config,
        frame: usize,
        party: Party,
    ) -> Result<(), NoMemory>
        requires placed { PartiesArePlaced config.now self.old }
        requires correct { is_correct config.now (party_number party) ≡ true }
        requires made { frame < length self.old.pool }
        ensures placed { OnOk result (PartiesArePlaced config.now self.new) }
        ensures delivers { OnOk result (FrameIsDelivered config.now frame (party_number party) self.old self.new) }
    {
        let bytes = self.share_frame(frame)?;
        self.pool.note_delivered(frame, party);
        self.feed(alloc, config, party, bytes)?;
        Ok(())
    }

    // The bytes of a frame.
    fn share_frame(&self, frame: usize) -> Result<SharedBytes, NoMemory>
        requires made { frame < length self.now.pool }
        ensures { IfOk result (λ bytes. HasBytes self.now.pool frame bytes) }
    {
        match self.pool.bytes(frame) {
            Some(bytes) => bytes.share(),
            None => unreachable!(),
        }
    }

    /// Delivers bytes to a correct party.
    pub(crate) fn feed(
        &mut self,
        alloc: Global,
        config: &Config,
        party: Party,
        bytes: SharedBytes,
    ) -> Result<(), NoMemory>
        requires placed { PartiesArePlaced config.now self.old }
        requires correct { is_correct config.now (party_number party) ≡ true }
        ensures placed { OnOk result (PartiesArePlaced config.now self.new) }
        ensures comes { OnOk result (InputComes config.now (Got (party_number party) bytes) self.old self.new) }
    {
        let outputs = match party {
            Party::Replica(replica) => {
                self.step_replica(alloc, replica, Event::Got(bytes.as_slice()))
            }
            Party::Client(client) => {
                self.step_client(alloc, client, ClientEvent::Got(bytes.as_slice()))
            }
        };
        self.add(config, EntryKind::Got(party, bytes))?;
        self.add_outputs(alloc, config, party, outputs)?;
        Ok(())
    }

    /// Tells a correct party that time went by.
    pub(crate) fn tick(
        &mut self,
        alloc: Global,
        config: &Config,
        party: Party,
    ) -> Result<(), NoMemory>
        requires placed { PartiesArePlaced config.now self.old }
        requires correct { is_correct config.now (party_number party) ≡ true }
        ensures placed { OnOk result (PartiesArePlaced config.now self.new) }
        ensures comes { OnOk result (InputComes config.now (Tick (party_number party)) self.old self.new) }
    {
        let outputs = match party {
            Party::Replica(replica) => self.step_replica(alloc, replica, Event::Timeout),
            Party::Client(client) => self.step_client(alloc, client, ClientEvent::Retry),
        };
        self.add(config, EntryKind::Tick(party))?;
        self.add_outputs(alloc, config, party, outputs)?;
        Ok(())
    }

    /// Adds a frame of a faulty party for these receivers.
    pub(crate) fn add_made(
        &mut self,
        alloc: Global,
        config: &Config,
        bytes: Vec<u8>,
        receivers: &[Party],
    ) -> Result<(), NoMemory>
        requires placed { PartiesArePlaced config.now self.old }
        ensures placed { OnOk result (PartiesArePlaced config.now self.new) }
        ensures frames { OnOk result (FrameIsMadeFor config.now bytes.items receivers.now self.old self.new) }
    {
        let waiting = correct_of(alloc, config, receivers)?;
        self.pool.add(SharedBytes::new(bytes)?, waiting)?;
        Ok(())
    }

    /// Delivers each frame to each of its correct receivers that didn't get it yet, also those that are made meanwhile.
    pub(crate) fn flush(&mut self, alloc: Global, config: &Config) -> Result<(), NoMemory>
        requires placed { PartiesArePlaced config.now self.old }
        requires stands { IsStanding config.now self.old }
        ensures placed { OnOk result (PartiesArePlaced config.now self.new) }
        ensures leads { OnOk result (LeadsBy config.now flush self.old self.new) }
    {
        // Each delivery lengthens the trace, and no memory holds so many entries.
        for _ in 0..u64::MAX {
            match self.next() {
                Some((frame, party)) => self.deliver(alloc, config, frame, party)?,
                None => return Ok(()),
            }
        }
        Err(NoMemory)
    }

    /// The correct parties that have stopped, ascending by number.
    pub(crate) fn stopped(&self, alloc: Global, config: &Config) -> Result<Vec<Party>, NoMemory>
        requires placed { PartiesArePlaced config.now self.now }
        ensures { IfOk result (λ parties. map party_number parties.items ≡ stopped_parties config.now self.now) }
    {
        let mut parties = Vec::new(alloc);
        self.add_stopped_replicas(config, &mut parties)?;
        self.add_stopped_clients(config, &mut parties)?;
        Ok(parties)
    }

    // Adds the correct replicas that have stopped.
    fn add_stopped_replicas(
        &self,
        config: &Config,
        parties: &mut Vec<Party>,
    ) -> Result<(), NoMemory>
        requires placed { PartiesArePlaced config.now self.now }
        ensures { AddsParties (stopped_replicas config.now self.now) parties.old parties.new result }
    {
        for number in 0..config.replicas() {
            self.add_stopped_replica(config, number, parties)?;
        }
        Ok(())
    }

    fn add_stopped_replica(
        &self,
        config: &Config,
        number: u8,
        parties: &mut Vec<Party>,
    ) -> Result<(), NoMemory>
        requires known { number < length self.now.replicas.items }
        ensures { AddsParties (filter (is_stopped_replica config.now self.now.replicas.items) (number ∷ []))
            parties.old parties.new result }
    {
        if self.is_stopped_replica(config, number) {
            parties.push(Party::Replica(ReplicaId(number)))?;
        }
        Ok(())
    }

    fn is_stopped_replica(&self, config: &Config, number: u8) -> bool
        requires known { number < length self.now.replicas.items }
        ensures { result ≡ is_stopped_replica config.now self.now.replicas.items number }
    {
        config.is_correct_replica(u16::from(number))
            && self.replicas[usize::from(number)].is_stopped()
    }

    // Adds the correct clients that have stopped.
    fn add_stopped_clients(&self, config: &Config, parties: &mut Vec<Party>) -> Result<(), NoMemory>
        requires placed { PartiesArePlaced config.now self.now }
        ensures { AddsParties (stopped_clients config.now self.now) parties.old parties.new result }
    {
        for number in 0..config.clients() {
            self.add_stopped_client(config, ClientId { number }, parties)?;
        }
        Ok(())
    }

    fn add_stopped_client(
        &self,
        config: &Config,
        client: ClientId,
        parties: &mut Vec<Party>,
    ) -> Result<(), NoMemory>
        requires known { client.number < length self.now.stage_clients.items }
        ensures { AddsParties
            (filter (is_stopped_client config.now self.now.stage_clients.items) (client_party client.number ∷ []))
            parties.old parties.new result }
    {
        if self.is_stopped_client(config, client) {
            parties.push(Party::Client(client))?;
        }
        Ok(())
    }

    fn is_stopped_client(&self, config: &Config, client: ClientId) -> bool
        requires known { client.number < length self.now.stage_clients.items }
        ensures { result ≡ is_stopped_client config.now self.now.stage_clients.items (client_party client.number) }
    {
        config.is_correct_client(Party::Client(client).number())
            && self.stage_clients[usize::from(client.number)]
                .client
                .is_stopped()
    }

    // The first frame that a party waits for, and the first party that does.
    fn next(&mut self) -> Option<(usize, Party)>
        ensures kept { self.new ≡ self.old }
        ensures next { MatchOption result (All IsServed self.old.pool) (WaitsFirst self.old.pool) }
    {
        self.pool.next()
    }

    // A replica that stops gives nothing.
    fn step_replica(&mut self, alloc: Global, replica: ReplicaId, event: Event<'_>) -> Outputs
        requires known { replica.0 < length self.old.replicas.items }
        ensures moves { StepsReplica self.old replica.0 event.entry result.items self.new }
        ensures stage_clients { self.new.stage_clients ≡ self.old.stage_clients }
        ensures kept { KeepsRecords self.old self.new }
    {
        match self.replicas[usize::from(replica.0)].step(alloc, event) {
            Ok(outputs) => outputs,
            Err(_) => Vec::new(alloc),
        }
    }

    // Nor does a client.
    fn step_client(&mut self, alloc: Global, client: ClientId, event: ClientEvent<'_>) -> Outputs
        requires known { client.number < length self.old.stage_clients.items }
        ensures moves { StepsClient self.old client.number event.entry result.items self.new }
        ensures replicas { self.new.replicas ≡ self.old.replicas }
        ensures kept { KeepsRecords self.old self.new }
    {
        match self.stage_clients[usize::from(client.number)]
            .client
            .step(alloc, event)
        {
            Ok(outputs) => outputs,
            Err(_) => Vec::new(alloc),
        }
    }

    // A client calls, with its timestamp. If it returns an error, it has stopped, and the call stays open for good.
    fn invoke(
        &mut self,
        alloc: Global,
        client: ClientId,
        op: Op<Global>,
    ) -> Result<(Timestamp, Outputs), NoMemory>
        requires known { client.number < length self.old.stage_clients.items }
        ensures calls { IfOk result (StepsInvocation self.old client.number (operation_of op) self.new) }
        ensures replicas { self.new.replicas ≡ self.old.replicas }
        ensures kept { KeepsRecords self.old self.new }
    {
        let stage_client = &mut self.stage_clients[usize::from(client.number)];
        // Each call lengthens the trace, and no memory holds so many entries.
        stage_client.calls = match stage_client.calls.checked_add(1) {
            Some(calls) => calls,
            None => return Err(NoMemory),
        };
        let timestamp = Timestamp(stage_client.calls);
        match stage_client.client.invoke(alloc, op) {
            Ok(outputs) => Ok((timestamp, outputs)),
            Err(_) => Ok((timestamp, Vec::new(alloc))),
        }
    }

    // Adds an entry that makes no frame, and accepts nothing.
    fn add(&mut self, config: &Config, kind: EntryKind) -> Result<(), NoMemory>
        requires plain { IsPlainEntry (entry_of_kind kind) }
        ensures adds { OnOk result (StageAddsEntry config.now (entry_of_kind kind) self.old self.new) }
        ensures kept { KeepsParties self.old self.new }
    {
        self.trace.push(Entry::new(kind))?;
        Ok(())
    }

    // Adds a party's outputs, in order.
    fn add_outputs(
        &mut self,
        alloc: Global,
        config: &Config,
        party: Party,
        outputs: Outputs,
    ) -> Result<(), NoMemory>
        ensures adds { OnOk result (AddsAllIfMeant config.now (party_number party) outputs.items self.old self.new) }
        ensures own { OnOk result (AreOf (party_number party) (entries_by party outputs)) }
        ensures kept { KeepsParties self.old self.new }
    {
        for output in outputs {
            self.add_output(alloc, config, party, output)?;
        }
        Ok(())
    }

    // Adds one output, a frame with its correct receivers. Only replicas execute, and only clients accept.
    fn add_output(
        &mut self,
        alloc: Global,
        config: &Config,
        party: Party,
        output: Output,
    ) -> Result<(), NoMemory>
        ensures adds { OnOk result (AddsIfMeant config.now (party_number party) output self.old self.new) }
        ensures own { OnOk result (IsOutputOf (party_number party) (entry_by party output)) }
        ensures kept { KeepsParties self.old self.new }
    {
        match (party, output) {
            (_, Output::Send(receivers, frame)) => self.add_sent(config, party, receivers, frame),
            (Party::Replica(replica), Output::Executed(number, batch)) => {
                self.add(config, EntryKind::Executed(replica, number, batch))
            }
            (Party::Replica(replica), Output::Installed(number, root)) => {
                let root = Arc::new(alloc, root)?;
                self.add(config, EntryKind::Installed(replica, number, root))
            }
            (Party::Client(client), Output::Accepted(timestamp, answer)) => {
                self.add_accepted(alloc, config, client, timestamp, answer)
            }
            // No party gives that.
            _ => Err(NoMemory),
        }
    }

    // Adds a frame that a party sent, with the correct ones of its receivers.
    fn add_sent(
        &mut self,
        config: &Config,
        party: Party,
        receivers: Vec<Party>,
        frame: SharedBytes,
    ) -> Result<(), NoMemory>
        ensures adds { OnOk result (AddsSent config.now party receivers frame self.old self.new) }
        ensures kept { KeepsParties self.old self.new }
    {
        let mut waiting = receivers;
        keep_correct(config, &mut waiting);
        self.pool.add(frame.share()?, waiting)?;
        self.trace.push(Entry::new(EntryKind::Sent(party, frame)))?;
        Ok(())
    }

    // Adds an acceptance, with its position in the trace.
    fn add_accepted(
        &mut self,
        alloc: Global,
        config: &Config,
        client: ClientId,
        timestamp: Timestamp,
        answer: Answer<Global>,
    ) -> Result<(), NoMemory>
        ensures adds { OnOk result (AddsAccepted config.now client timestamp answer self.old self.new) }
        ensures kept { KeepsParties self.old self.new }
    {
        let acceptance = Acceptance {
            position: self.trace.len(),
            client,
            timestamp,
            answer: answer.copy_in(alloc)?,
        };
        self.accepted.push(acceptance)?;
        let answer = Arc::new(alloc, answer)?;
        self.trace
            .push(Entry::new(EntryKind::Accepted(client, timestamp, answer)))?;
        Ok(())
    }
}

fn new_replicas(
    alloc: Global,
    config: &Config,
    publics: &PublicKeys,
) -> Result<Vec<Replica>, NoMemory>
    requires keys { publics.now ≡ config.now.publics }
    ensures { IfOk result (λ rs. AreNewReplicas config.now rs.items) }
{
    let mut replicas = Vec::new(alloc);
    for number in 0..config.replicas() {
        replicas.push(new_replica(alloc, config, publics, ReplicaId(number))?)?;
    }
    Ok(replicas)
}

fn new_replica(
    alloc: Global,
    config: &Config,
    publics: &PublicKeys,
    id: ReplicaId,
) -> Result<Replica, NoMemory>
    requires keys { publics.now ≡ config.now.publics }
    requires known { id.0 < replicas config.now }
    ensures { IfOk result (λ r. IsNewReplica config.now id.0 r) }
{
    let ring = own_ring(alloc, config, Party::Replica(id));
    let signer = Signer::from_seed(&signing_seed(config.seed(), Party::Replica(id)));
    let numbers = Numbers {
        faults: config.faults(),
        clients: config.clients(),
        period: config.period(),
    };
    Replica::new(alloc, numbers, id, ring, signer, publics.share()?)
}

fn new_stage_clients(
    alloc: Global,
    config: &Config,
    publics: &PublicKeys,
) -> Result<Vec<StageClient>, NoMemory>
    requires keys { publics.now ≡ config.now.publics }
    ensures { IfOk result (λ stage_clients. AreNewStageClients config.now stage_clients.items) }
{
    let mut stage_clients = Vec::new(alloc);
    for number in 0..config.clients() {
        stage_clients.push(new_stage_client(alloc, config, publics, ClientId { number })?)?;
    }
    Ok(stage_clients)
}

fn new_stage_client(
    alloc: Global,
    config: &Config,
    publics: &PublicKeys,
    id: ClientId,
) -> Result<StageClient, NoMemory>
    requires keys { publics.now ≡ config.now.publics }
    ensures { IfOk result (λ stage_client. IsNewStageClient config.now id.number stage_client) }
{
    let ring = own_ring(alloc, config, Party::Client(id));
    let client = Client::new(id, config.faults(), ring, publics.share()?);
    Ok(StageClient { client, calls: 0 })
}

// The keys that the seed gives a party, and no other. Most parties of a schedule never meet, so no row is dealt as a
// whole.
fn own_ring(alloc: Global, config: &Config, party: Party) -> Ring
    ensures { result ≡ own_ring config.now (party_number party) }
{
    Ring::dealt(
        alloc,
        config.seed(),
        config.faults(),
        config.clients(),
        party,
    )
}
